// What reading a value comes to, as one word. A `Result` goes through memory: with one, `plain` takes 8 % longer on lists and records
// and misses its speed bar.
ghost use Rattle.std.specs.Prelude.{◌≡◌, ◌^◌, ◌<◌, Ok, Err};
ghost use Rattle.json_reader.specs.JsonParts.{Packs, Caused, cause_of, answer_of};

use reading::{Cause, Cursor, Refusal};

// The word of a value that was read: 17 bits for the place, 16 for the values begun and the rest for the pool.
pub fn done(to: Cursor) -> u64
    requires { Packs to }
    ensures packed { answer_of result ≡ Ok to }
{
    (to.at + 0x20000 * to.begun + 0x200000000 * to.top) as u64
}

// The word of a refusal: 32 bits for the place, then the number of its cause, and the highest bit.
pub fn refused(cause: Cause, place: usize) -> u64
    requires { Caused cause × (place < 2 ^ 32) }
    ensures packed { answer_of result ≡ Err (record { cause = cause; place = place }) }
{
    place as u64 + 0x100000000 * cause.number() + 0x8000000000000000
}

// The cause of this number, of those that a document is refused for.
fn cause_of(number: u64) -> Cause
    ensures { result ≡ cause_of number }
{
    match number {
        3 => Cause::JsonSyntax,
        4 => Cause::NumberLimit,
        5 => Cause::DuplicateName,
        _ => Cause::ValueLimit,
    }
}

// What a word stands for.
pub fn opened(r: u64) -> Result<Cursor, Refusal>
    ensures told { result ≡ answer_of r }
{
    if r < 0x8000000000000000 {
        return Ok(Cursor {
            at: (r % 0x20000) as usize,
            begun: (r / 0x20000 % 0x10000) as usize,
            top: (r / 0x200000000) as usize,
        });
    }
    Err(Refusal {
        cause: cause_of(r / 0x100000000 % 0x80000000),
        place: (r % 0x100000000) as usize,
    })
}
