//! The version of the program, and the toolchain that proved it.

// tools/release writes the first two lines anew.
pub(crate) const VERSION: &str = "weoldrin 0.1.0
proved with rattle-kit-13f logic dac8208d650f15bf
input: files of hex, one envelope a line
";
