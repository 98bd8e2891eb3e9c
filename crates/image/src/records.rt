// The records: 8 bytes each, operation, c, a, b and the immediate word.

ghost use Rattle.std.specs.Prelude.{◌≡◌, ◌+◌, ◌*◌, ◌/◌, ◌%◌, ◌<◌, not, is_ok, IfOk};
ghost use Rattle.operations.specs.Forms.{is_short, operation_number};
ghost use Rattle.image.specs.Table.{bodies_of, table_of};
ghost use Rattle.image.specs.Records.{record_holds, records_from, total_of, image_of, without_long};
ghost use Rattle.image.specs.Rules.{ImageSays};
ghost use Rattle.image.specs.Marks.{long_only};
ghost use Rattle.words.specs.Exactly.{Exactly};

use crate::table::{ImageFault, check_table};
use memory::word_at;
use operations::{is_compare, is_operation};

// Whether the record with that first word is in its bounds: the operation by its number, c, a and b. Where b is 16 the operand is the immediate, which JEQ to JGE.U do not take; below that only the operation is left to try.
fn word_fits(w: u32) -> bool
    ensures { result ≡ record_holds (operation_number (w % 256)) (w / 256 % 256) (w / 65536 % 256) (w / 16777216) }
{
    let number = w % 0x80;
    let registers = (w / 0x1000 % 16 == 0) & (w / 0x10_0000 % 16 == 0);
    if registers & (w / 0x1000_0000 == 0) {
        return is_operation(number);
    }
    registers & (w / 0x100_0000 == 16) & is_operation(number) & !is_compare(number)
}

// What a pass over all records finds: that each holds, and whether none is a short form. Two facts of one pass, either of them known without the other.
#[derive(Clone, Copy)]
struct Scan {
    hold: bool,
    long: bool,
}

// The same without a branch, so that several records are tried at a time.
fn word_holds(w: u32) -> bool
    ensures { result ≡ record_holds (operation_number (w % 256)) (w / 256 % 256) (w / 65536 % 256) (w / 16777216) }
{
    let op = w % 0x80;
    let b = w / 0x100_0000;
    is_operation(op)
        & (w / 0x100 % 0x100 <= 15)
        & (w / 0x1_0000 % 0x100 <= 15)
        & (b <= 16)
        & ((b <= 15) | !is_compare(op))
}

// Whether it is that of a long record.
fn word_long(w: u32) -> bool
    ensures { result ≡ not (is_short (w % 256)) }
{
    w / 0x80 % 2 == 0
}

// One pass over all records, several at a time.
fn scan_all(image: &[u8]) -> Scan
    requires { table_of image.now ≡ Ok tt }
    ensures { (result.hold ≡ is_ok (records_from (total_of image.now) image.now (bodies_of image.now) 0)) × (result.long ≡ long_only image.now) }
{
    let n = word_at(image, 0);
    let from = 4 + 12 * n as usize;
    let count = (image.len() - from) / 8;
    let mut hold = true;
    let mut long = true;
    for k in 0..count {
        let w = word_at(image, from + 8 * k);
        hold &= word_holds(w);
        long &= word_long(w);
    }
    Scan { hold, long }
}

// The records, one by one, to the first at fault; where all hold, whether none is a short form. Counting the short ones costs less than a flag.
fn scan_each(image: &[u8]) -> Result<bool, ImageFault>
    requires { table_of image.now ≡ Ok tt }
    ensures { (without_long result ≡ records_from (total_of image.now) image.now (bodies_of image.now) 0) × IfOk result (λ long. long ≡ long_only image.now) }
{
    let n = word_at(image, 0);
    let from = 4 + 12 * n as usize;
    let count = (image.len() - from) / 8;
    let mut short: u32 = 0;
    for k in 0..count {
        let w = word_at(image, from + 8 * k);
        if !word_fits(w) {
            return Err(ImageFault::Record(k as u32));
        }
        short += w / 0x80 % 2;
    }
    Ok(short == 0)
}

// The records, after the table. Those of a large image are tried several at a time, and one by one only where some record does not hold.
fn scan_records(image: &[u8]) -> Result<bool, ImageFault>
    requires { table_of image.now ≡ Ok tt }
    ensures { (without_long result ≡ records_from (total_of image.now) image.now (bodies_of image.now) 0) × IfOk result (λ long. long ≡ long_only image.now) }
{
    if image.len() < 0x200 {
        return scan_each(image);
    }
    let s = scan_all(image);
    if s.hold {
        return Ok(s.long);
    }
    scan_each(image)
}

// The image: its table, then each record; where rules 2 and 3 hold, whether it has no short form.
pub fn scan_image(image: &[u8]) -> Result<bool, ImageFault>
    ensures { (without_long result ≡ image_of image.now) × Exactly (ImageSays image.now) (without_long result) × IfOk result (λ long. long ≡ long_only image.now) }
{
    check_table(image)?;
    scan_records(image)
}

pub fn check_image(image: &[u8]) -> Result<(), ImageFault>
    ensures { (result ≡ image_of image.now) × Exactly (ImageSays image.now) result }
{
    scan_image(image)?;
    Ok(())
}
