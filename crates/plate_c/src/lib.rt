// The calls for C, each over the unit's call of the same name. Most give one number, whose bits 0 to 31 are the answer, bits 32 to 39 the
// status, and the bits from 40 on the number of the refusal; those whose answer is wider or of several parts give a struct.
#![tactic(auto)]

ghost use Rattle.std.specs.Prelude.{◌≡◌, length};
ghost use Rattle.kinds.specs.declared.Rule.TheVariants.{Touching, Lifted};
ghost use Rattle.significand.specs.Call.{raw_refusal, raw_answer, raw64_refusal, raw64_answer, fill_refusal, slice_after};
ghost use Rattle.ieee.specs.Call.{binary32_refusal, binary32_bits, binary32_status};
ghost use Rattle.binary64.specs.Call.{binary64_refusal, binary64_bits, binary64_status};
ghost use Rattle.cutter.specs.Call.{list_refusal, list_answer, buffer_after};
ghost use Rattle.plate.specs.Packed.{packed};
ghost use Rattle.plate.specs.Raw64.{raw64_call, raw64_for_c};
ghost use Rattle.plate.specs.Binary64.{binary64_call, binary64_for_c};
ghost use Rattle.reader.specs.Reader.{record_refusal};
ghost use Rattle.plate.specs.Record.{record_call, record_told, rounding_number, numbers_for_c, record_for_c};

use plate::c::{CBinary64Reply, CRecordReply, Raw64Reply};
use plate::{
    ListRecord, Operation, Refusal, Rounding, Status, binary32, binary64, fill_tables, lifted_list,
    list, raw, raw64, record,
};

// The raw call; it has no status, so those bits are 0.
#[unsafe(no_mangle)]
pub extern "C" fn plate_raw(operation: u8, significand: u32, parity: u8) -> u64
    ensures { result ≡ packed (raw_refusal operation significand parity) 0 (raw_answer operation significand parity) }
{
    match raw(Operation(operation), significand, parity) {
        Ok(answer) => pack(0, 0, answer),
        Err(refusal) => pack(refusal.number(), 0, 0),
    }
}

// The filling call, which gives the refusal alone.
#[unsafe(no_mangle)]
pub extern "C" fn plate_fill_tables(tables: &mut [u64]) -> u8
    ensures value { result ≡ fill_refusal (length tables.old) }
    ensures tables_after { tables.new ≡ slice_after tables.old }
{
    match fill_tables(tables) {
        Ok(()) => 0,
        Err(refusal) => refusal.number(),
    }
}

// The raw call for significands of 53 bits.
#[unsafe(no_mangle)]
pub extern "C" fn plate_raw64(
    operation: u8,
    significand: u64,
    parity: u8,
    tables: &[u64],
) -> Raw64Reply
    ensures value { result ≡ raw64_for_c (raw64_call operation significand parity tables.now) }
    ensures numbers { (result.refusal ≡ raw64_refusal operation significand parity tables.now) × (result.answer ≡ raw64_answer operation significand parity tables.now) }
{
    match raw64(Operation(operation), significand, parity, tables) {
        Ok(answer) => Raw64Reply { refusal: 0, answer },
        Err(refusal) => Raw64Reply {
            refusal: refusal.number(),
            answer: 0,
        },
    }
}

// The binary32 call.
#[unsafe(no_mangle)]
pub extern "C" fn plate_binary32(operation: u8, rounding: u8, status: u8, bits: u32) -> u64
    ensures { result ≡ packed (binary32_refusal operation rounding) (binary32_status operation rounding bits status) (binary32_bits operation rounding bits) }
{
    let reply = binary32(
        Operation(operation),
        Rounding(rounding),
        bits,
        Status { flags: status },
    );
    match reply.answer {
        Ok(answer) => pack(0, reply.status.flags, answer),
        Err(refusal) => pack(refusal.number(), reply.status.flags, 0),
    }
}

// The binary64 call.
#[unsafe(no_mangle)]
pub extern "C" fn plate_binary64(
    operation: u8,
    rounding: u8,
    status: u8,
    bits: u64,
    tables: &[u64],
) -> CBinary64Reply
    ensures value { result ≡ binary64_for_c (binary64_call operation rounding bits (record { flags = status }) tables.now) }
    ensures numbers { (result.refusal ≡ binary64_refusal operation rounding bits tables.now) × (result.bits ≡ binary64_bits operation rounding bits tables.now) }
    ensures status { result.status ≡ binary64_status operation rounding bits status tables.now }
{
    let reply = binary64(
        Operation(operation),
        Rounding(rounding),
        bits,
        Status { flags: status },
        tables,
    );
    match reply.answer {
        Ok(answer) => CBinary64Reply {
            refusal: 0,
            status: reply.status.flags,
            bits: answer,
        },
        Err(refusal) => CBinary64Reply {
            refusal: refusal.number(),
            status: reply.status.flags,
            bits: 0,
        },
    }
}

// The list call; it has no status either.
#[unsafe(no_mangle)]
pub extern "C" fn plate_list(rounding: u8, map: &[u8], buffer: &mut [u8]) -> u64
    ensures value { result ≡ packed (list_refusal rounding map.now (length buffer.old)) 0 (list_answer rounding map.now (length buffer.old)) }
    ensures buffer_after { buffer.new ≡ buffer_after Touching rounding map.now buffer.old }
{
    match list(Rounding(rounding), map, buffer) {
        Ok(length) => pack(0, 0, length as u32),
        Err(refusal) => pack(refusal.number(), 0, 0),
    }
}

// The lifted list call.
#[unsafe(no_mangle)]
pub extern "C" fn plate_lifted_list(rounding: u8, map: &[u8], buffer: &mut [u8]) -> u64
    ensures value { result ≡ packed (list_refusal rounding map.now (length buffer.old)) 0 (list_answer rounding map.now (length buffer.old)) }
    ensures buffer_after { buffer.new ≡ buffer_after Lifted rounding map.now buffer.old }
{
    match lifted_list(Rounding(rounding), map, buffer) {
        Ok(length) => pack(0, 0, length as u32),
        Err(refusal) => pack(refusal.number(), 0, 0),
    }
}

// The record call.
#[unsafe(no_mangle)]
pub extern "C" fn plate_record(list: &[u8], index: usize) -> CRecordReply
    ensures value { result ≡ record_for_c (record_call list.now index) }
    ensures numbers { result ≡ numbers_for_c (record_refusal list.now index) (record_told list.now index) }
{
    match record(list, index) {
        Ok(r) => record_for_c(0, r),
        Err(refusal) => record_for_c(
            refusal.number(),
            ListRecord {
                rounding: None,
                width: 0,
                depth: 0,
                step: 0,
                radius: 0,
                x: 0,
                y: 0,
                z: 0,
            },
        ),
    }
}

fn record_for_c(refusal: u8, r: ListRecord) -> CRecordReply
    ensures { result ≡ numbers_for_c refusal r }
{
    CRecordReply {
        refusal,
        rounding: rounding_number(r.rounding),
        width: r.width,
        depth: r.depth,
        step: r.step,
        radius: r.radius,
        x: r.x,
        y: r.y,
        z: r.z,
    }
}

// By cases and not by `map_or`, because they stand so in the definition of this name.
fn rounding_number(rounding: Option<Rounding>) -> u8
    ensures { result ≡ rounding_number rounding }
{
    match rounding {
        None => 255,
        Some(known) => known.0,
    }
}

// The three numbers of a reply as one.
fn pack(refusal: u8, status: u8, answer: u32) -> u64
    ensures { result ≡ packed refusal status answer }
{
    (refusal as u64) * 1099511627776 + (status as u64) * 4294967296 + answer as u64
}
