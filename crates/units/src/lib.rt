// Little-endian numbers in byte slices, copying and clearing, and sums of units.
#![tactic(auto)]

ghost use Rattle.std.proofs.Common.{lit<, lit≤};
ghost use Rattle.std.specs.Prelude.{◌≡◌, ◌+◌, ◌*◌, ◌%◌, ◌^◌, ◌<◌, ◌≤◌, ℕ, length, replicate};
ghost use Rattle.units.specs.Units.{field, bytes_of, splice, checksum, zeros, same};

// A number that stands in bytes, low byte first. Its impls are written out, since no impl may come from a macro of the repository.
pub trait InBytes: Copy {
    // How many bytes, and what a clause sees of the number.
    ghost WIDTH: { ℕ };

    ghost value: { Self → ℕ };

    const WIDTH: usize;

    // The number in the bytes from `at` on.
    fn read(s: &[u8], at: usize) -> Self
        requires { at + WIDTH ≤ length s.now }
        ensures { value result ≡ field s.now at WIDTH };

    // Writes v into the bytes from `at` on.
    fn put(s: &mut [u8], at: usize, v: Self)
        requires { at + WIDTH ≤ length s.old }
        ensures { s.new ≡ splice s.old at (bytes_of WIDTH (value v)) };

    fn zero() -> Self
        ensures { value result ≡ 0 };

    // The sum modulo 2 to the width in bits.
    fn plus(self, other: Self) -> Self
        ensures { value result ≡ (value self + value other) % 256 ^ WIDTH };

    ghost few_bytes: { (0 < WIDTH) × (WIDTH ≤ 8) };
}

impl InBytes for u8 {
    ghost WIDTH = { 1 };

    ghost value = { λ n. n };

    ghost few_bytes = { (lit< tt, lit≤ tt) };

    const WIDTH: usize = 1;

    fn read(s: &[u8], at: usize) -> u8 {
        s[at]
    }

    fn put(s: &mut [u8], at: usize, v: u8) {
        s[at] = v;
    }

    fn zero() -> u8 {
        0
    }

    fn plus(self, other: u8) -> u8 {
        self.wrapping_add(other)
    }
}

impl InBytes for u16 {
    ghost WIDTH = { 2 };

    ghost value = { λ n. n };

    ghost few_bytes = { (lit< tt, lit≤ tt) };

    const WIDTH: usize = 2;

    fn read(s: &[u8], at: usize) -> u16 {
        u16::from_le_bytes(s[at..at + 2].try_into().unwrap())
    }

    fn put(s: &mut [u8], at: usize, v: u16) {
        s[at..at + 2].copy_from_slice(&v.to_le_bytes());
    }

    fn zero() -> u16 {
        0
    }

    fn plus(self, other: u16) -> u16 {
        self.wrapping_add(other)
    }
}

impl InBytes for u32 {
    ghost WIDTH = { 4 };

    ghost value = { λ n. n };

    ghost few_bytes = { (lit< tt, lit≤ tt) };

    const WIDTH: usize = 4;

    fn read(s: &[u8], at: usize) -> u32 {
        u32::from_le_bytes(s[at..at + 4].try_into().unwrap())
    }

    fn put(s: &mut [u8], at: usize, v: u32) {
        s[at..at + 4].copy_from_slice(&v.to_le_bytes());
    }

    fn zero() -> u32 {
        0
    }

    fn plus(self, other: u32) -> u32 {
        self.wrapping_add(other)
    }
}

impl InBytes for u64 {
    ghost WIDTH = { 8 };

    ghost value = { λ n. n };

    ghost few_bytes = { (lit< tt, lit≤ tt) };

    const WIDTH: usize = 8;

    fn read(s: &[u8], at: usize) -> u64 {
        u64::from_le_bytes(s[at..at + 8].try_into().unwrap())
    }

    fn put(s: &mut [u8], at: usize, v: u64) {
        s[at..at + 8].copy_from_slice(&v.to_le_bytes());
    }

    fn zero() -> u64 {
        0
    }

    fn plus(self, other: u64) -> u64 {
        self.wrapping_add(other)
    }
}

// The number in the 6 bytes from `at` on. No integer type has 48 bits, so it is no `InBytes`.
pub fn read48(s: &[u8], at: usize) -> u64
    requires { at + 6 ≤ length s.now }
    ensures { result ≡ field s.now at 6 }
{
    u64::from(u32::read(s, at)) + u64::from(u16::read(s, at + 4)) * 0x1_0000_0000
}

// Writes the low 48 bits of v into the 6 bytes from `at` on.
pub fn put48(s: &mut [u8], at: usize, v: u64)
    requires { at + 6 ≤ length s.old }
    ensures { s.new ≡ splice s.old at (bytes_of 6 v) }
{
    u32::put(s, at, (v % 0x1_0000_0000) as u32);
    u16::put(s, at + 4, (v / 0x1_0000_0000 % 0x1_0000) as u16);
}

// Copies src over dst from `at` on. Not by `copy_from_slice`, of which the compiler makes a call of libc's memmove.
#[tactic(auto, using(crate::proofs::Writes::paste_step))]
pub fn copy_at(dst: &mut [u8], at: usize, src: &[u8])
    requires { at + length src.now ≤ length dst.old }
    ensures { dst.new ≡ splice dst.old at src.now }
{
    for (i, byte) in src.iter().enumerate() {
        dst[at + i] = *byte;
    }
}

// Clears n bytes of dst from `at` on.
pub fn clear_at(dst: &mut [u8], at: usize, n: usize)
    requires { at + n ≤ length dst.old }
    ensures { dst.new ≡ splice dst.old at (replicate n 0) }
{
    let half = n / 2;
    clear_halves(dst, at, half);
    if n % 2 == 1 {
        dst[at + 2 * half] = 0;
    }
}

// Clears twice `half` bytes from `at` on, both halves side by side: of a single run, `fill` too, the compiler makes a call of libc's
// memset. By index, since after a walk over `iter_mut` a proof knows nothing of the bytes.
#[tactic(auto, using(crate::proofs::Writes::cleared_none, crate::proofs::Writes::cleared_step, crate::proofs::Writes::cleared_whole))]
fn clear_halves(dst: &mut [u8], at: usize, half: usize)
    requires { at + 2 * half ≤ length dst.old }
    ensures { dst.new ≡ splice dst.old at (replicate (2 * half) 0) }
{
    for i in 0..half {
        dst[at + i] = 0;
        dst[at + half + i] = 0;
    }
}

// Whether every byte is zero.
pub fn all_zero(s: &[u8]) -> bool
    ensures { result ≡ zeros s.now }
{
    for byte in s {
        if *byte != 0 {
            return false;
        }
    }
    true
}

// Whether two long runs of bytes are equal, byte by byte to the end: the compiler makes vector code of a walk that does not stop.
fn equal_bytes(a: &[u8], b: &[u8]) -> bool
    requires { length a.now ≡ length b.now }
    ensures { result ≡ same a.now b.now }
{
    let mut e = true;
    for i in 0..a.len() {
        e = e & (a[i] == b[i]);
    }
    e
}

// Whether two runs of bytes are equal: of over 64 bytes whole lines of 32, and where bytes are left over the last 32, some of them
// again. `==` alone looks at up to two lines more, and misses docs/BENCH.md's 1.2 at packets of 96 to 1,024 bytes.
pub fn equal(a: &[u8], b: &[u8]) -> bool
    ensures { result ≡ same a.now b.now }
{
    let n = a.len();
    if n != b.len() {
        return false;
    }
    if n <= 64 {
        return a == b;
    }
    let lines = n - n % 32;
    let front = equal_bytes(&a[0..lines], &b[0..lines]);
    if lines == n {
        return front;
    }
    front & equal_bytes(&a[n - 32..n], &b[n - 32..n])
}

// The k-th unit of s.
fn unit<T: InBytes>(s: &[u8], k: usize) -> T
    requires { T.WIDTH * (k + 1) ≤ length s.now }
    ensures { T.value result ≡ field s.now (T.WIDTH * k) T.WIDTH }
{
    T::read(s, T::WIDTH * k)
}

// The sum of the first n units of s, modulo 2 to the width in bits. A fold over `chunks_exact` compiles to the same code; tried, its
// proof didn't close for want of a law of chunks.
#[tactic(auto, using(crate::proofs::Sums::sum_step, crate::proofs::Sums::checksum_none, crate::proofs::Sums::within))]
pub fn sum<T: InBytes>(s: &[u8], n: usize) -> T
    requires { T.WIDTH * n ≤ length s.now }
    ensures { T.value result ≡ checksum T.WIDTH n s.now }
{
    let mut acc = T::zero();
    for k in 0..n {
        acc = acc.plus(unit(s, k));
    }
    acc
}

// Four lanes of equal length, a multiple of `turn`, behind a rest that fills no turn of all four.
fn rest_and_lane(n: usize, turn: usize) -> (usize, usize)
    requires { (0 < turn) × (turn ≤ 64) }
    ensures { result.0 + 4 * result.1 ≡ n }
{
    (n % (4 * turn), n / (4 * turn) * turn)
}

// The same sum of many units. What fills no whole line of 256 bytes is added first; the rest are four lanes of equal length, one
// behind the other, added side by side by number, as no one walk over the bytes is: the compiler makes one vector loop of them, 128 bytes a
// turn. Out of line, since inlined the
// frame's table keeps two more registers for them (64-byte-none +3.3 %).
#[inline(never)]
#[tactic(auto, using(crate::proofs::Sums::within))]
pub fn lanes<T: InBytes>(s: &[u8], n: usize) -> T
    requires { T.WIDTH * n ≤ length s.now }
    ensures { T.value result ≡ checksum T.WIDTH n s.now }
{
    let (rest, lane) = rest_and_lane(n, 64 / T::WIDTH);
    let mut acc = sum::<T>(s, rest);
    for i in rest..rest + lane {
        acc = acc.plus(unit(s, i));
        acc = acc.plus(unit(s, i + lane));
        acc = acc.plus(unit(s, i + 2 * lane));
        acc = acc.plus(unit(s, i + 3 * lane));
    }
    acc
}
