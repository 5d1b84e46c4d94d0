//! Laws of the texts of days and moments. Each is the contract of a function that does nothing.

ghost use Rattle.std.specs.Prelude.{◌≡◌, ◌↔◌, ℕ, ℤ, List, Some};
ghost use Rattle.mdl_table.specs.Calendar.{day_of, moment_of};
ghost use Rattle.mdl_table.specs.MomentText.{text_of, NamesDay, Says};

/// The moment of the text of a moment is the moment.
pub fn moment_of_its_text()
    ensures { (moment : ℤ) (text : List ℕ) → text_of moment ≡ Some text → moment_of text ≡ Some moment }
{}

/// A text is read as a moment exactly where it says the moment: a day and a time of day that exist,
/// written out.
pub fn moment_is_written_out()
    ensures { (text : List ℕ) (moment : ℤ) → (moment_of text ≡ Some moment) ↔ Says text moment }
{}

/// A text is read as a day exactly where it names the day: a day that exists, written out.
pub fn day_is_written_out()
    ensures { (text : List ℕ) (number : ℤ) → (day_of text ≡ Some number) ↔ NamesDay text number }
{}
