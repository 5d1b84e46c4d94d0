//! Laws of spec files. Each is the contract of a function that does nothing.

ghost use Rattle.std.specs.Prelude.{◌≡◌, Bool, List, ◌++◌, Err};
ghost use Rattle.mdoc_outside.specs.Lines.{Line};
ghost use Rattle.issue_spec.specs.SpecFile.{with_lines};
ghost use Rattle.issue_spec.specs.SpecSoFar.{SoFar};
ghost use Rattle.issue_spec.specs.declared.spec_fault.SpecFault.{SpecFault};

/// The fault of the first bad line is the fault of each file that begins with these lines, whatever lines
/// follow.
pub fn fault_of_lines_stays()
    ensures { (new : Bool) (so_far : SoFar) (lines more : List Line) (fault : SpecFault) → with_lines new so_far lines ≡ Err fault → with_lines new so_far (lines ++ more) ≡ Err fault }
{}
