// The input cut into job, catalogue and size list, and the sheet of the three.
ghost use Rattle.std.specs.Prelude.{◌≡◌, ◌≤◌, length};
ghost use Rattle.basis.specs.Stored.{stored};
ghost use Rattle.rated_text.specs.RatedText.{text_of};
ghost use Rattle.sheet_text.specs.Sheet.{record_end, record_of, after_record, sheet_text, written_text};

use rated_text::text_of;
use text::Text;
use wire::Field;

// Where the record at the front ends: at its stated length, or where the input ends. Under four bytes state none.
#[tactic(auto, unfolding(crate::specs::Sheet::record_end))]
fn record_end(s: &[u8]) -> usize
    ensures { (result ≡ record_end s.now) × (result ≤ length s.now) }
{
    if s.len() < 4 {
        return s.len();
    }
    // std has no `From` of u32 for usize; each u32 fits.
    let stated = u32::at(s, 0) as usize;
    stated.min(s.len())
}

// The sheet of job, catalogue and size list, one after another.
fn parts_text(read: &[u8]) -> Text<4096>
    ensures { result ≡ text_of (record_of read.now) (record_of (after_record read.now)) (after_record (after_record read.now)) }
{
    let (job, rest) = read.split_at(record_end(read));
    let (catalogue, list) = rest.split_at(record_end(rest));
    text_of(job, catalogue, list)
}

/// The sheet of the first 65,536 bytes of the input, at the front of the buffer, and its length. A buffer of under 4,096 bytes gets nothing.
#[tactic(auto, using(crate::proofs::Cut::written), unfolding(crate::specs::Sheet::sheet_text))]
pub fn sheet(input: &[u8], out: &mut [u8]) -> usize
    ensures length { result ≡ length (written_text (length out.old) input.now) }
    ensures buffer { out.new ≡ stored out.old 0 (written_text (length out.old) input.now) }
{
    if out.len() < 4096 {
        return 0;
    }
    let n = input.len().min(65536);
    let text = parts_text(&input[..n]);
    let bytes = text.as_bytes();
    out[..bytes.len()].copy_from_slice(bytes);
    bytes.len()
}
