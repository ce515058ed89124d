// What calls for C give back if one number has no room for it: numbers in structs, because C can be handed no cases. The calls are those
// of the crate `plate_c`.

// The reply for C of the raw call for significands of 53 bits: refusal 0 with the answer, or the number of a question with answer 0.
#[repr(C)]
#[derive(Clone, Copy)]
pub struct Raw64Reply {
    pub refusal: u8,
    pub answer: u64,
}

// The binary64 call's reply for C, whose answer leaves no room in one number.
#[repr(C)]
#[derive(Clone, Copy)]
pub struct CBinary64Reply {
    pub refusal: u8,
    pub status: u8,
    pub bits: u64,
}

// The record call's reply for C: the rounding by its number, and 255, which no call takes for a rounding, where it is unknown.
#[repr(C)]
#[derive(Clone, Copy)]
pub struct CRecordReply {
    pub refusal: u8,
    pub rounding: u8,
    pub width: u32,
    pub depth: u32,
    pub step: u32,
    pub radius: u32,
    pub x: i32,
    pub y: i32,
    pub z: i32,
}
