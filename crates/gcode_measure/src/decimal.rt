//! Numbers with six decimals.
ghost use Rattle.std.specs.Prelude.{◌≡◌, ◌+◌, ◌%◌, ◌≤◌, ◌++◌, [], OnOk, codes, decimal, length};
ghost use Rattle.arrayvec.specs.ArrayVec.{array_vec_len};
ghost use Rattle.gcode_measure.specs.Decimal.{sign_text, six_digits, micro_text};

use arrayvec::ArrayVec;
use byte_text::append;
use itoa::Buffer;
use octo_outside::Blob;
use std::alloc::AllocError;

// Millionths in one.
const MILLION: u128 = 1_000_000;

// A number with six decimals: a sign, its digits, a point and six digits.
pub(crate) type Decimal = ArrayVec<u8, 48>;

// The ASCII digit of the lowest place.
fn digit(n: u32) -> u8
    ensures { result ≡ 48 + n % 10 }
{
    b'0' + (n % 10) as u8
}

// The last six digits of a number.
fn six_digits(n: u32) -> [u8; 6]
    ensures { result ≡ six_digits n }
{
    [
        digit(n / 100_000),
        digit(n / 10_000),
        digit(n / 1_000),
        digit(n / 100),
        digit(n / 10),
        digit(n),
    ]
}

// Adds `-` for a number below 0.
fn append_sign(text: &mut Decimal, micro: i128)
    requires { array_vec_len text.old + 1 ≤ 48 }
    ensures items { text.new.items ≡ text.old.items ++ sign_text micro }
    ensures len { array_vec_len text.new ≤ array_vec_len text.old + 1 }
{
    if micro < 0 {
        append(text, b"-");
    }
}

// Adds a number in decimal.
fn append_whole(text: &mut Decimal, n: u128)
    requires { array_vec_len text.old + 40 ≤ 48 }
    ensures items { text.new.items ≡ text.old.items ++ decimal n }
    ensures len { array_vec_len text.new ≤ array_vec_len text.old + 40 }
{
    let mut buffer = Buffer::new();
    append(text, buffer.format(n).as_bytes());
}

// Adds a point and six decimals.
fn append_decimals(text: &mut Decimal, n: u32)
    requires { array_vec_len text.old + 7 ≤ 48 }
    ensures items { text.new.items ≡ text.old.items ++ (codes "." ++ six_digits n) }
    ensures len { array_vec_len text.new ≤ array_vec_len text.old + 7 }
{
    append(text, b".");
    append(text, &six_digits(n));
}

// Writes a number of millionths with six decimals into an empty text.
#[tactic(auto, unfolding(crate::specs::Decimal::micro_text))]
fn write_micro(text: &mut Decimal, micro: i128)
    requires { text.old.items ≡ [] }
    ensures items { text.new.items ≡ micro_text micro }
    ensures len { array_vec_len text.new ≤ 48 }
{
    let magnitude = micro.unsigned_abs();
    append_sign(text, micro);
    append_whole(text, magnitude / MILLION);
    append_decimals(text, (magnitude % MILLION) as u32);
}

// A number of millionths with six decimals.
pub(crate) fn micro_digits(micro: i128) -> Decimal
    ensures items { result.items ≡ micro_text micro }
    ensures len { length result.items ≤ 48 }
{
    let mut text = Decimal::new();
    write_micro(&mut text, micro);
    text
}

// Adds a number of millionths with six decimals; after an error the text may hold a part of it.
pub(crate) fn put_micro(text: &mut Blob, micro: i128) -> Result<(), AllocError>
    ensures { OnOk result (text.new ≡ text.old ++ micro_text micro) }
{
    text.append(micro_digits(micro).as_slice())
}
