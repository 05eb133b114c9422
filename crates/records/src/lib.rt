// The fields of records, records written into a lent buffer, and the refusals.
#![tactic(auto)]

pub mod refusal; // the refusals of all calls

ghost use Rattle.std.specs.Prelude.{◌+◌, ◌≤◌, ◌≡◌, ◌++◌, length, drop};
ghost use Rattle.records.specs.Fields.{high_byte, low_byte, wide_of};
ghost use Rattle.records.specs.Writing.{splice};

pub use refusal::Refusal;

// The wide field of two bytes.
pub fn wide(high: u8, low: u8) -> u16
    ensures { result ≡ wide_of high low }
{
    u16::from(high) * 256 + u16::from(low)
}

// The high byte of a wide field.
pub fn high(x: u16) -> u8
    ensures { result ≡ high_byte x }
{
    (x >> 8) as u8
}

// The low byte of a wide field.
pub fn low(x: u16) -> u8
    ensures { result ≡ low_byte x }
{
    (x & 0xff) as u8
}

// A record in the part of a buffer that begins at a position, and the position behind it. No other byte changes: a writer that
// sets the byte after the record, or hands back the buffer's end, is none.
pub fn put(buf: &mut [u8], at: usize, bytes: &[u8]) -> usize
    requires { at + length bytes.now ≤ length buf.old }
    ensures { (result ≡ at + length bytes.now)
        × (buf.new ≡ splice buf.old at bytes.now) }
{
    let end = at + bytes.len();
    buf[at..end].copy_from_slice(bytes);
    end
}
