// Fill (01-scope.md, "Sheets"): the template with all blanks that the sheet names replaced at one moment. It is measured first and written second,
// so a refusal has written nothing.
#![tactic(auto)]

ghost use Rattle.std.specs.Prelude.{◌≡◌, length};
ghost use Rattle.meaning.specs.Answers.{fill_answer, buffer_after};
ghost use Rattle.buffers.specs.Said.{made_said};

use leaves::refusals::{Fault, Refusal};
use sheets::Sheet;

// Fills a template with a sheet, whatever their bytes are, into the front of a lent buffer of any length.
pub fn fill(template: &[u8], sheet: &[u8], out: &mut [u8]) -> Result<usize, Refusal>
    ensures is { result ≡ made_said (fill_answer template.now sheet.now (length out.old)) }
    ensures buffer { out.new ≡ buffer_after out.old (fill_answer template.now sheet.now (length out.old)) }
{
    reader::read(template)?;
    let sheet = Sheet::read(sheet, Fault::SheetBroken)?;
    let size = sizes::measure(template, &sheet);
    let length = buffers::verdict(size.length, size.depth, out.len())?;
    writes::write(template, &sheet, out, 0);
    Ok(length)
}
