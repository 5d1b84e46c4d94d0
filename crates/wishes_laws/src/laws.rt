//! Laws of wishes files. Each is the contract of a function that does nothing.

ghost use Rattle.std.specs.Prelude.{◌≡◌, ◌↔◌, ◌⊎◌, ℕ, List, Ok, Err};
ghost use Rattle.doc_request.specs.declared.doc_draft.DocDraft.{DocDraft};
ghost use Rattle.mdoc_outside.specs.declared.limit_name.LimitName.{LimitName};
ghost use Rattle.mdoc_frame.specs.Wishes.{wishes_of};
ghost use Rattle.mdoc_frame.specs.declared.file_fault.FileFault.TheVariants.{Limit, Line, Memory};
ghost use Rattle.wishes_laws.specs.BadLine.{IsBadLine, IsLimited, PassesLimit};
ghost use Rattle.wishes_laws.specs.WishesFile.{IsWishesFile};

/// The reading of a text gives documents exactly where its lines that are not ignored are, in order,
/// those of the documents, within the limits.
pub fn is_wishes_file()
    ensures { (text : List ℕ) (documents : List DocDraft) → (wishes_of text ≡ Ok documents) ↔ IsWishesFile text documents }
{}

/// The line that is reported is the first after which no lines make a wishes file, limits apart; and where
/// there is such a line it is reported, or a limit that was exceeded before.
pub fn first_bad_line()
    ensures reported { (text : List ℕ) (number : ℕ) → wishes_of text ≡ Err (Line number) → IsBadLine text number }
    ensures found { (text : List ℕ) (number : ℕ) → IsBadLine text number → (wishes_of text ≡ Err (Line number)) ⊎ IsLimited text }
{}

/// A limit is reported only where lines of the text, from its first on, pass it, and up to there nothing is
/// wrong with them; want of memory is no answer of a definition.
pub fn exceeded_limit()
    ensures limit { (text : List ℕ) (limit : LimitName) (count : ℕ) → wishes_of text ≡ Err (Limit limit count) → PassesLimit text limit count }
    ensures memory { (text : List ℕ) → wishes_of text ≡ Err Memory → ⊥ }
{}
