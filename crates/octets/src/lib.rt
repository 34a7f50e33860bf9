// Bytes: numbers in them, low byte first, writing them into a lent room, and the check (Fletcher-32).
#![tactic(auto)]

ghost use Rattle.std.specs.Prelude.{◌≡◌, ◌+◌, ◌*◌, ◌/◌, ◌%◌, ◌<◌, ◌≤◌, leb, length, drop, replicate};
ghost use Rattle.octets.specs.Bytes.{byte, number2, number4, number8, bytes4, zero_from, zero_between};
ghost use Rattle.octets.specs.Fletcher.{words, sums, fletcher};
ghost use Rattle.octets.specs.Writes.{put_at};

// The check counts by this modulus.
const MODULUS: u64 = 65535;

// The words of a run: so many that the two sums fit 64 bits without a remainder.
const RUN: usize = 4096;

// The two sums of the check, remainders both.
#[derive(Clone, Copy)]
struct Sums {
    a: u64,
    b: u64,
    ghost small: { (a < 65535) × (b < 65535) },
}

impl Sums {
    // The check of the two sums.
    fn join(self) -> u32
        ensures { result ≡ self.a + 65536 * self.b }
    {
        (self.a + 65536 * self.b) as u32
    }
}

// NUMBERS IN BYTES. Byte `at`; past the end stands zero.
pub fn byte(s: &[u8], at: usize) -> u8
    ensures { result ≡ byte at s.now }
{
    s.get(at).copied().unwrap_or(0)
}

// Kept: this and the two below it as they are, since `from_le_bytes` wants an array, and past the end stand zeros: no plainer.
// The number of two bytes from `at` on, low byte first.
pub fn number2(s: &[u8], at: usize) -> u32
    ensures { (result ≡ number2 at s.now) × (result < 65536) }
{
    if at < s.len() {
        u32::from(byte(s, at)) + 256 * u32::from(byte(s, at + 1))
    } else {
        0
    }
}

// The number of four bytes.
pub fn number4(s: &[u8], at: usize) -> u32
    ensures { result ≡ number4 at s.now }
{
    if at < s.len() {
        number2(s, at) + 65536 * number2(s, at + 2)
    } else {
        0
    }
}

// The number of eight bytes.
pub fn number8(s: &[u8], at: usize) -> u64
    ensures { result ≡ number8 at s.now }
{
    if at < s.len() {
        u64::from(number4(s, at)) + 4294967296 * u64::from(number4(s, at + 4))
    } else {
        0
    }
}

// ZEROS. Whether the bytes from `at` on are zero.
pub fn zero_from(s: &[u8], at: usize) -> bool
    ensures { result ≡ zero_from at s.now }
{
    s.iter().skip(at).all(|x| 0 == *x)
}

// Whether the bytes from `at` up to the one before `end` are zero.
pub fn zero_between(s: &[u8], at: usize, end: usize) -> bool
    ensures { result ≡ zero_between at end s.now }
{
    zero_from(&s[..end.min(s.len())], at)
}

// WRITING. Whether `count` bytes from `at` on fit a room of `size`.
fn fits(at: usize, count: usize, size: usize) -> bool
    ensures { result ≡ leb (at + count) size }
{
    count <= size && at <= size - count
}

// Writes bytes from `at` on; nothing where they do not fit.
pub fn copy_at(bytes: &[u8], at: usize, room: &mut [u8])
    ensures { room.new ≡ put_at at bytes.now room.old }
{
    if fits(at, bytes.len(), room.len()) {
        room[at..at + bytes.len()].copy_from_slice(bytes);
    }
}

// Writes zeros.
pub fn put_zeros(count: usize, at: usize, room: &mut [u8])
    ensures { room.new ≡ put_at at (replicate count 0) room.old }
{
    if fits(at, count, room.len()) {
        room[at..at + count].fill(0);
    }
}

// Writes a number as four bytes.
pub fn put4(x: u32, at: usize, room: &mut [u8])
    ensures { room.new ≡ put_at at (bytes4 x) room.old }
{
    copy_at(&x.to_le_bytes(), at, room);
}

// THE CHECK. The sums after a run of n words from byte `at` on: the remainders are taken once.
fn add_words(bytes: &[u8], at: usize, n: usize, before: Sums) -> Sums
    requires { (at + 2 * n ≤ length bytes.now) × (n ≤ 4096) }
    ensures { sums result.a result.b (words (drop (at + 2 * n) bytes.now)) ≡ sums before.a before.b (words (drop at bytes.now)) }
{
    let mut low = before.a;
    let mut high = before.b;
    for k in 0..n {
        let i = at + 2 * k;
        low += u64::from(bytes[i]) + 256 * u64::from(bytes[i + 1]);
        high += low;
    }
    Sums {
        a: low % MODULUS,
        b: high % MODULUS,
    }
}

// The check from the sums after all whole words: an odd last byte is followed by a zero.
fn end_check(bytes: &[u8], reached: Sums) -> u32
    ensures { result ≡ sums reached.a reached.b (words (drop (2 * (length bytes.now / 2)) bytes.now)) }
{
    let at = 2 * (bytes.len() / 2);
    if at < bytes.len() {
        let low = (reached.a + u64::from(bytes[at])) % MODULUS;
        let high = (reached.b + low) % MODULUS;
        Sums { a: low, b: high }.join()
    } else {
        reached.join()
    }
}

// Fletcher-32 of a string of bytes.
pub fn block_check(bytes: &[u8]) -> u32
    ensures { result ≡ fletcher bytes.now }
{
    let total = bytes.len() / 2;
    let mut reached = Sums { a: 0, b: 0 };
    for run in 0..total.div_ceil(RUN) {
        let i = RUN * run;
        reached = add_words(bytes, 2 * i, (total - i).min(RUN), reached);
    }
    end_check(bytes, reached)
}
