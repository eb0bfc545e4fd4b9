//! The names of the registers.

ghost use Rattle.std.specs.Prelude.{◌≡◌};
ghost use Rattle.ax_arm_text.specs.Registers.{register_of, w_name, x_name};

use ax_arm::Size;

/// The 64-bit name of a register by its number, 0 to 31. Another number has the empty name.
pub(crate) fn x_name(r: u8) -> &'static str
    ensures { result.now ≡ x_name r }
{
    match r {
        0 => "x0",
        1 => "x1",
        2 => "x2",
        3 => "x3",
        4 => "x4",
        5 => "x5",
        6 => "x6",
        7 => "x7",
        8 => "x8",
        9 => "x9",
        10 => "x10",
        11 => "x11",
        12 => "x12",
        13 => "x13",
        14 => "x14",
        15 => "x15",
        16 => "x16",
        17 => "x17",
        18 => "x18",
        19 => "x19",
        20 => "x20",
        21 => "x21",
        22 => "x22",
        23 => "x23",
        24 => "x24",
        25 => "x25",
        26 => "x26",
        27 => "x27",
        28 => "x28",
        29 => "x29",
        30 => "x30",
        31 => "sp",
        _ => "",
    }
}

/// The 32-bit name of a register by its number, 0 to 30. Another number has the empty name.
pub(crate) fn w_name(r: u8) -> &'static str
    ensures { result.now ≡ w_name r }
{
    match r {
        0 => "w0",
        1 => "w1",
        2 => "w2",
        3 => "w3",
        4 => "w4",
        5 => "w5",
        6 => "w6",
        7 => "w7",
        8 => "w8",
        9 => "w9",
        10 => "w10",
        11 => "w11",
        12 => "w12",
        13 => "w13",
        14 => "w14",
        15 => "w15",
        16 => "w16",
        17 => "w17",
        18 => "w18",
        19 => "w19",
        20 => "w20",
        21 => "w21",
        22 => "w22",
        23 => "w23",
        24 => "w24",
        25 => "w25",
        26 => "w26",
        27 => "w27",
        28 => "w28",
        29 => "w29",
        30 => "w30",
        _ => "",
    }
}

/// The name of a register whose bytes are moved.
pub(crate) fn register_of(size: Size, r: u8) -> &'static str
    ensures { result.now ≡ register_of size r }
{
    match size {
        Size::Double => x_name(r),
        _ => w_name(r),
    }
}
