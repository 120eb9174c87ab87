// The options' bounds and defaults (specification, 'Options').

// The four options of a layout as a caller gives them, not yet checked.
#[derive(Clone, Copy, Debug, PartialEq, Eq)]
pub struct OptionNumbers {
    pub style: u32,
    pub indent_width: u32,
    pub signature_width: u32,
    pub list_width: u32,
}

// Style 0 is SameLine, 1 Allman.
pub const MOST_STYLE: u32 = 1;

pub const MOST_INDENT_WIDTH: u32 = 16;

// The bound of the signature width and of the list width.
pub const MOST_WIDTH: u32 = 65535;

pub const DEFAULT_STYLE: u32 = 1;

pub const DEFAULT_INDENT_WIDTH: u32 = 4;

// The default of the signature width and of the list width.
pub const DEFAULT_WIDTH: u32 = 40;
