//! The lines of a file, and which of them belong together.
use crate::RowError;
use std::alloc::Global;

/// A line without the white space at its ends, or several that were folded by backslashes.
#[derive(Debug, Drop)]
pub struct Line {
    /// Its place in the file, counted from 1.
    pub number: usize,
    /// What it says.
    pub text: String,
}

/// A line that is not indented, and the indented lines below it: a row, or the head and the lines of a script.
#[derive(Debug, Drop)]
pub struct Block {
    /// The row, or the script's head.
    pub head: Line,
    /// The lines of the script.
    pub lines: Vec<Line>,
}

// What is read of a file.
#[derive(Drop)]
struct Reader {
    blocks: Vec<Block>,
    // whether the last line goes on
    is_open: bool,
}

/// The blocks of a file's text. Comments and blank lines are left out.
pub fn blocks(alloc: Global, text: &str) -> Result<Vec<Block>, RowError> {
    let mut reader = Reader {
        blocks: Vec::new(alloc),
        is_open: false,
    };
    let mut number = 0usize;
    for line in text.lines() {
        number = number.saturating_add(1);
        reader.read(alloc, number, line)?;
    }
    Ok(reader.blocks)
}

// The line that the last one goes on in.
fn last_text(block: &mut Block) -> &mut String {
    match block.lines.last_mut() {
        Some(line) => &mut line.text,
        None => &mut block.head.text,
    }
}

impl Reader {
    fn read(&mut self, alloc: Global, number: usize, line: &str) -> Result<(), RowError> {
        let trimmed = line.trim();
        if !self.is_open && (trimmed.is_empty() || trimmed.starts_with('#')) {
            return Ok(());
        }
        let (text, goes_on) = match trimmed.strip_suffix('\\') {
            Some(text) => (text, true),
            None => (trimmed, false),
        };
        if self.is_open {
            self.go_on(text)?;
        } else {
            self.begin(alloc, number, text, line.starts_with(' '))?;
        }
        self.is_open = goes_on;
        Ok(())
    }

    fn go_on(&mut self, text: &str) -> Result<(), RowError> {
        if let Some(block) = self.blocks.last_mut() {
            last_text(block).push_str(text)?;
        }
        Ok(())
    }

    fn begin(
        &mut self,
        alloc: Global,
        number: usize,
        text: &str,
        is_indented: bool,
    ) -> Result<(), RowError> {
        let line = Line {
            number,
            text: String::from_str(alloc, text)?,
        };
        match self.blocks.last_mut() {
            Some(block) if is_indented => block.lines.push(line)?,
            _ => self.blocks.push(Block {
                head: line,
                lines: Vec::new(alloc),
            })?,
        }
        Ok(())
    }
}
