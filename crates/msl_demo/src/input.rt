ghost use Rattle.std.specs.Prelude.{◌≡◌, ◌<◌, ◌≤◌, IfOk};
ghost use Rattle.msl_io.specs.Text.{text_of};
ghost use Rattle.msl_demo_laws.specs.Demo.{demo_record};
ghost use Rattle.msl_demo_laws.specs.Laws.{demo_input};

use msl_base::NoMemory;
use msl_io::{Bytes, Piece};
use std::alloc::Global;

// The most bytes that the text of one record has.
const RECORD_BYTES: usize = 8;

// The text of the first records.
pub fn demo_input(alloc: Global, records: u32) -> Result<Bytes, NoMemory>
    requires { records ≤ 100000 }
    ensures { IfOk result (λ bytes. bytes ≡ demo_input records) }
{
    let mut text = Vec::with_capacity(alloc, records as usize * RECORD_BYTES)?;
    for k in 0..records {
        let record = record_text(k);
        text.extend_from_slice(record.as_slice())?;
    }
    Ok(Bytes::from_vec(text))
}

// The text of record k.
fn record_text(k: u32) -> Piece
    requires { k < 100000 }
    ensures { result ≡ text_of (demo_record k) }
{
    let mut text = Piece::new();
    text.push_decimal(u64::from(k % 1000));
    text.push(b' ');
    text.push_decimal(u64::from(7 * k % 1000));
    text.push(b'\n');
    text
}
