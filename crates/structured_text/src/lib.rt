// The service that writes Structured Text: one descent over the text makes its image in memory of its own; the print goes over the image's
// code from its end, once to measure and once into the lent buffer. A refused text so never touches the buffer.
#![tactic(auto)]

ghost use Rattle.std.specs.Prelude.{◌≡◌, [], ◌+◌, ◌*◌, ◌≤◌, length};
ghost use Rattle.limits.specs.Limits.{text_limit, name_limit, image_room};
ghost use Rattle.lexer.specs.Names.{table_names, Table};
ghost use Rattle.semantics.specs.Program.{Program};
ghost use Rattle.bytecode.specs.Instructions.{encode_all};
ghost use Rattle.bytecode.specs.Translation.{Translatable, code_rules};
ghost use Rattle.st_writer.specs.Inner.Fronts.{Fronts};
ghost use Rattle.st_writer.specs.Inner.Mirrored.{mirrored};
ghost use Rattle.structured_text.specs.Services.{structured_text_of};
ghost use Rattle.structured_text.specs.Results.{after_writing, WrittenWithin};
ghost use Rattle.structured_text.specs.Inner.Prepared.{whole_printed, Compiled, ReadyToPrint};

use limits::Refusal;

pub mod reserved;

// The Structured Text of any text fits in as many bytes.
const ST_ROOM: usize = 115998;

// The whole, from the mirrored code, before `to`: the last part first.
fn print_before(
    text: &[u8],
    starts: &[usize],
    ends: &[usize],
    values: &[i32],
    inputs: usize,
    count: usize,
    code: &[u8],
    out: &mut [u8],
    to: usize,
) -> usize
    requires table { Table starts.now ends.now count }
    requires inputs_le_count { (inputs ≤ count) × (count ≤ length values.now) }
    ensures { (p : Program) → Translatable p → p.timers ≡ [] → code.now ≡ mirrored (code_rules [] p.rules) []
        → Fronts (whole_printed inputs (table_names text.now starts.now ends.now count) values.now p.rules)
        out.old out.new to result }
{
    let savings = st_sections::savings_before(text, starts, ends, count, out, to);
    let rules = st_writer::statements::rules_before(text, starts, ends, count, code, out, savings);
    st_sections::sections_before(text, starts, ends, values, inputs, count, out, rules)
}

// Measured first, over memory that takes nothing of it but a byte.
fn write_mirrored(
    text: &[u8],
    out: &mut [u8],
    starts: &[usize],
    ends: &[usize],
    values: &[i32],
    inputs: usize,
    count: usize,
    code: &[u8],
) -> Result<usize, Refusal>
    requires { ReadyToPrint (λ is. mirrored is []) text.now starts.now ends.now values.now inputs count code.now }
    ensures out_after { after_writing result out.new ≡ structured_text_of text.now out.old }
    ensures written_within { WrittenWithin result }
{
    let mut scrap = [0u8; 1];
    let first = print_before(
        text, starts, ends, values, inputs, count, code, &mut scrap, ST_ROOM,
    );
    let size = ST_ROOM - first;
    if out.len() < size {
        return Err(Refusal::BufferTooShort(text.len()));
    }
    print_before(text, starts, ends, values, inputs, count, code, out, size);
    Ok(size)
}

// The code mirrored into lent memory.
fn write_code(
    text: &[u8],
    out: &mut [u8],
    starts: &[usize],
    ends: &[usize],
    values: &[i32],
    inputs: usize,
    count: usize,
    code: &[u8],
    mirror: &mut [u8],
) -> Result<usize, Refusal>
    requires ready_to_print { ReadyToPrint encode_all text.now starts.now ends.now values.now inputs count code.now }
    requires code_in_bounds { length code.now ≤ length mirror.old }
    ensures out_after { after_writing result out.new ≡ structured_text_of text.now out.old }
    ensures written_within { WrittenWithin result }
{
    let size = code.len();
    st_writer::mirror(code, mirror);
    write_mirrored(
        text,
        out,
        starts,
        ends,
        values,
        inputs,
        count,
        &mirror[..size],
    )
}

// The image of an accepted text: its header, then 21, then the code.
fn write_image(
    text: &[u8],
    out: &mut [u8],
    starts: &[usize],
    ends: &[usize],
    low: &mut [i32],
    high: &mut [i32],
    values: &mut [i32],
    timers: usize,
    image: &[u8],
    mirror: &mut [u8],
) -> Result<usize, Refusal>
    requires compiled { Compiled text.now starts.now ends.now timers image.now }
    requires name_limit_in_bounds { (name_limit ≤ length values.old) × (length image.now ≤ length mirror.old) }
    ensures out_after { after_writing result out.new ≡ structured_text_of text.now out.old }
    ensures written_within { WrittenWithin result }
{
    let headed = bytecode::header(image, low, high, values);
    let Ok((inputs, count, place)) = headed else {
        return Err(Refusal::BrokenImage(0));
    };
    if !reserved::has_st(text, starts, ends, count, timers) {
        return Err(Refusal::NotInSt(reserved::reserved_place(text)));
    }
    write_code(
        text,
        out,
        starts,
        ends,
        values,
        inputs,
        count,
        &image[place..],
        mirror,
    )
}

// Over lent memory with room for the image, once as it is and once mirrored.
fn write_in(
    text: &[u8],
    out: &mut [u8],
    scratch: &mut [u8],
    mirror: &mut [u8],
) -> Result<usize, Refusal>
    requires text_len_bound { (length text.now ≤ text_limit) × (3 * length text.now + 4 ≤ 2 * length scratch.old) }
    requires scratch_in_bounds { length scratch.old ≤ length mirror.old }
    ensures out_after { after_writing result out.new ≡ structured_text_of text.now out.old }
    ensures written_within { WrittenWithin result }
{
    let mut starts = [0usize; limits::NAME_LIMIT];
    let mut ends = [0usize; limits::NAME_LIMIT];
    let mut low = [0i32; 1];
    let mut high = [0i32; 1];
    let mut values = [0i32; limits::NAME_LIMIT];
    let end = translate::descend(text, &mut starts, &mut ends, scratch)?;
    let size = end.to;
    write_image(
        text,
        out,
        &starts,
        &ends,
        &mut low,
        &mut high,
        &mut values,
        end.end,
        &scratch[..size],
        mirror,
    )
}

// With room for an image of ROOM bytes (as translate: clearing the memory would else take longer than the work).
fn write_with_room<const ROOM: usize>(text: &[u8], out: &mut [u8]) -> Result<usize, Refusal>
    requires text_in_room { (length text.now ≤ text_limit) × (3 * length text.now + 4 ≤ 2 * ROOM) }
    requires room_within { ROOM ≤ image_room }
    ensures out_after { after_writing result out.new ≡ structured_text_of text.now out.old }
    ensures written_within { WrittenWithin result }
{
    let mut scratch = [0u8; ROOM];
    let mut mirror = [0u8; ROOM];
    write_in(text, out, &mut scratch, &mut mirror)
}

// The length of the Structured Text. No image of a text has over 49,154 bytes, of one of at most 1,024 bytes over 1,538, of one of at most 8,192 bytes over 12,290.
pub fn structured_text(text: &[u8], out: &mut [u8]) -> Result<usize, Refusal>
    ensures out_after { after_writing result out.new ≡ structured_text_of text.now out.old }
    ensures written_within { WrittenWithin result }
{
    if text.len() <= 1024 {
        return write_with_room::<1538>(text, out);
    }
    if text.len() <= 8192 {
        return write_with_room::<12290>(text, out);
    }
    if text.len() <= limits::TEXT_LIMIT {
        return write_with_room::<{ limits::IMAGE_ROOM }>(text, out);
    }
    Err(Refusal::TooLong)
}
