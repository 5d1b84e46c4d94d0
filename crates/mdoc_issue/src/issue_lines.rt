// The lines that `issue` prints.
ghost use Rattle.std.specs.Prelude.{◌≡◌, IfOk};
ghost use Rattle.issue_spec.specs.Spec.{fields};
ghost use Rattle.mdoc_issue.specs.Issue.{issue_lines, issued_line, root_line};

use issue_spec::Spec;
use issuing::Issued;
use mdoc_outside::{Memory, Octets};
use mdoc_print::{put_name, put_number};
use std::alloc::Global;

// The line that tells what was issued.
fn issued_line(alloc: Global, spec: &Spec) -> Result<Octets, Memory>
    ensures { IfOk result (λ line. line ≡ issued_line (fields spec.now)) }
{
    let mut line = b"issued ".to_vec(alloc)?;
    put_name(&mut line, alloc, spec.doc_type())?;
    line.extend_from_slice(b" copies ")?;
    put_number(&mut line, alloc, u64::from(spec.copies()))?;
    line.extend_from_slice(b" elements ")?;
    put_number(&mut line, alloc, spec.elements().len() as u64)?;
    line.push(b'\n')?;
    Ok(Octets::from_vec(line))
}

// The line that tells the certificate of the root.
fn root_line(alloc: Global, root: &[u8]) -> Result<Octets, Memory>
    ensures { IfOk result (λ line. line ≡ root_line root.now) }
{
    let digits = hex::encode(alloc, root)?;
    let mut line = b"root issuer ".to_vec(alloc)?;
    line.extend_from_slice(digits.as_bytes())?;
    line.push(b'\n')?;
    Ok(Octets::from_vec(line))
}

// The lines, in order.
pub(crate) fn issue_lines(
    alloc: Global,
    spec: &Spec,
    issued: &Issued,
) -> Result<Vec<Octets>, Memory>
    ensures { IfOk result (λ lines. lines.items ≡ issue_lines (fields spec.now) issued.now) }
{
    let mut lines = Vec::new(alloc);
    if let Some(root) = &issued.root {
        lines.push(root_line(alloc, root.as_slice())?)?;
    }
    lines.push(issued_line(alloc, spec)?)?;
    Ok(lines)
}
