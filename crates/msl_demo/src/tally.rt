ghost use Rattle.std.specs.Prelude.{◌≡◌, ◌≤◌, ◌*◌, ◌≤ℤ◌, pos, List, All, length};
ghost use Rattle.msl_base.specs.Streams.{Record};
ghost use Rattle.msl_demo_laws.specs.Demo.{demo_line, total};
ghost use Rattle.msl_demo_laws.specs.Results.{IsSmall};
ghost use Rattle.msl_demo.specs.Tallies.{Counts, IsTallyOf, MayCount};

use msl_io::Piece;

// What there is in records.
#[derive(Clone, Copy)]
pub struct Tally {
    records: u32,
    numbers: u32,
    sum: i64,
}

impl Tally {
    // That of no record.
    pub fn new() -> Tally
        ensures { result ≡ record { records = 0; numbers = 0; sum = pos 0 } }
    {
        Tally {
            records: 0,
            numbers: 0,
            sum: 0,
        }
    }

    // Counts one record more.
    pub fn count(&mut self, numbers: &[i64])
        requires { MayCount self.old numbers.now }
        ensures { Counts self.old numbers.now self.new }
    {
        self.records += 1;
        self.numbers += numbers.len() as u32;
        self.sum += sum_of(numbers);
    }

    // The line that says it, where so many records went in.
    pub fn line(&self, records: u32) -> Piece
        ensures { (outs : List Record) → IsTallyOf outs self.now → result ≡ demo_line records outs }
    {
        let mut line = Piece::new();
        line.push_bytes(b"demo: ");
        line.push_decimal(u64::from(records));
        line.push_bytes(b" records in, ");
        line.push_decimal(u64::from(self.records));
        line.push_bytes(b" records out, ");
        line.push_decimal(u64::from(self.numbers));
        line.push_bytes(b" numbers, sum ");
        line.push_number(&self.sum);
        line.push(b'\n');
        line
    }
}

// The sum of the numbers of a result.
fn sum_of(numbers: &[i64]) -> i64
    requires few { length numbers.now ≤ 3 }
    requires small { All IsSmall numbers.now }
    ensures sum { result ≡ total numbers.now }
    ensures low { pos 0 ≤ℤ result }
    ensures high { result ≤ℤ pos (999999 * length numbers.now) }
{
    let mut sum = 0;
    for number in numbers {
        sum += number;
    }
    sum
}
