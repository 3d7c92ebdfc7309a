// Bytes, decimals and lines put into a lent buffer, as far as there is room; each function answers the place behind what it put, at
// most the buffer's end.
ghost use Rattle.std.specs.Prelude.{◌≡◌, [], ◌∷◌, map, ◌+◌, ◌*◌, ◌≤◌, min, length};
ghost use Rattle.lexer.specs.Bytes.{part};
ghost use Rattle.lexer.specs.Names.{table_names};
ghost use Rattle.trace_text.specs.Output.{Put, unsigned_decimal, decimal_of, spaced, refused_line, head_line, row_line};

// One byte, where there is room for it; the place behind it, at most the buffer's end.
pub fn put_byte(out: &mut [u8], at: usize, b: u8) -> usize
    ensures { Put out.old at (b ∷ []) out.new result }
{
    if at < out.len() {
        out[at] = b;
        return at + 1;
    }
    out.len()
}

// The shortest decimal. By hand: the library prints into memory of its own, from which the digits would have to be copied.
fn put_unsigned_decimal(out: &mut [u8], at: usize, n: u64) -> usize
    ensures { Put out.old at (unsigned_decimal n) out.new result }
{
    if n < 10 {
        return put_byte(out, at, (48 + n) as u8);
    }
    let next = put_unsigned_decimal(out, at, n / 10);
    put_byte(out, next, (48 + n % 10) as u8)
}

fn put_decimal(out: &mut [u8], at: usize, z: i32) -> usize
    ensures { Put out.old at (decimal_of z) out.new result }
{
    let n = u64::from(z.unsigned_abs());
    if 0 <= z {
        return put_unsigned_decimal(out, at, n);
    }
    let next = put_byte(out, at, 45);
    put_unsigned_decimal(out, next, n)
}

fn put_bytes(out: &mut [u8], at: usize, word: &[u8]) -> usize
    ensures { Put out.old at word.now out.new result }
{
    let place = at.min(out.len());
    let count = word.len().min(out.len() - place);
    out[place..place + count].copy_from_slice(&word[..count]);
    place + count
}

// The part of the text from `start` to `end`, after a space.
fn put_name(out: &mut [u8], at: usize, text: &[u8], start: usize, end: usize) -> usize
    ensures { Put out.old at (32 ∷ part text.now start end) out.new result }
{
    let next = put_byte(out, at, 32);
    put_bytes(out, next, lexer::name(text, start, end))
}

// The names that the first `count` entries of the table spell, each after a space.
fn put_names(
    out: &mut [u8],
    at: usize,
    text: &[u8],
    starts: &[usize],
    ends: &[usize],
    count: usize,
) -> usize
    ensures { Put out.old at (spaced (table_names text.now starts.now ends.now count)) out.new result }
{
    let mut place = at.min(out.len());
    for (start, end) in starts.iter().zip(ends).take(count) {
        place = put_name(out, place, text, *start, *end);
    }
    place
}

// `scan`, the names that the first `count` entries of the table spell, `result`.
pub fn put_head(
    out: &mut [u8],
    at: usize,
    text: &[u8],
    starts: &[usize],
    ends: &[usize],
    count: usize,
) -> usize
    ensures { Put out.old at (head_line (table_names text.now starts.now ends.now count)) out.new result }
{
    let first = put_bytes(out, at, b"scan");
    let second = put_names(out, first, text, starts, ends, count);
    put_bytes(out, second, b" result\n")
}

// Numbers, each after a space.
fn put_values(out: &mut [u8], at: usize, values: &[i32]) -> usize
    ensures put { Put out.old at (spaced (map decimal_of values.now)) out.new result }
    ensures values_len_bound { length (spaced (map decimal_of values.now)) ≤ 12 * length values.now }
{
    let mut place = at.min(out.len());
    for z in values {
        let next = put_byte(out, place, 32);
        place = put_decimal(out, next, *z);
    }
    place
}

// Row number, values, refusal or 0.
pub fn put_row(out: &mut [u8], at: usize, number: u64, values: &[i32], refusal: u64) -> usize
    ensures put { Put out.old at (row_line number values.now refusal) out.new result }
    ensures refusal_len_bound { length (row_line number values.now refusal) ≤ 12 * length values.now + 42 }
{
    let first = put_unsigned_decimal(out, at, number);
    let second = put_values(out, first, values);
    let third = put_byte(out, second, 32);
    let fourth = put_unsigned_decimal(out, third, refusal);
    put_byte(out, fourth, 10)
}

// `refused K at P`
pub fn put_refused(out: &mut [u8], at: usize, number: u64, place: u64) -> usize
    ensures put { Put out.old at (refused_line number place) out.new result }
    ensures place_len_bound { length (refused_line number place) ≤ 53 }
{
    let first = put_bytes(out, at, b"refused ");
    let second = put_unsigned_decimal(out, first, number);
    let third = put_bytes(out, second, b" at ");
    let fourth = put_unsigned_decimal(out, third, place);
    put_byte(out, fourth, 10)
}
