//! Tables of tests that are texts, so that they cost the proof nothing: blocks of a model and what is said of it, and
//! lists of numbers.

use std::alloc::Global;
use std::test::Fail;

/// A block: the text of a model to its line `end`, and the lines after it.
#[derive(Drop)]
pub struct Block<'a> {
    pub model: Vec<u8>,
    pub said: &'a str,
}

/// The parts of a block.
pub fn block_of(alloc: Global, block: &str) -> Result<Block<'_>, Fail> {
    let (lines, said) = block
        .split_once("\nend\n")
        .ok_or("a block without a model's end")?;
    let mut model = Vec::new(alloc);
    model.extend_from_slice(lines.as_bytes())?;
    model.extend_from_slice(b"\nend\n")?;
    Ok(Block { model, said })
}

/// The numbers of a text, with blanks between.
pub fn numbers(alloc: Global, text: &str) -> Result<Vec<u32>, Fail> {
    let mut numbers = Vec::new(alloc);
    for word in text.split_whitespace() {
        numbers.push(word.parse::<u32>()?)?;
    }
    Ok(numbers)
}
