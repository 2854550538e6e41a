//! What is told of a time.

ghost use Rattle.std.specs.Prelude.{◌≡◌, ◌++◌, codes, IfOk, OnOk};
ghost use Rattle.syn_report.specs.Seconds.{seconds, seconds_text};

use crate::pieces::{push_counted, push_number, push_text};
use std::alloc::{AllocError, Global};

// Puts hundredths of a second behind a line, as seconds.
fn push_seconds(line: &mut Vec<u8>, hundredths: u64) -> Result<(), AllocError>
    ensures { OnOk result (line.new.items ≡ line.old.items ++ seconds hundredths) }
{
    push_number(line, hundredths / 100)?;
    push_counted(line, b".", hundredths / 10 % 10)?;
    push_number(line, hundredths % 10)
}

/// How long something took: hundredths of a second, where they are known. The only error is want of memory.
pub fn seconds_text(alloc: Global, hundredths: Option<u64>) -> Result<Vec<u8>, AllocError>
    ensures { IfOk result (λ text. text.items ≡ seconds_text hundredths) }
{
    let mut text = Vec::new(alloc);
    push_text(&mut text, b"elapse: ")?;
    match hundredths {
        None => push_text(&mut text, b"unknown")?,
        Some(hundredths) => {
            push_seconds(&mut text, hundredths)?;
            push_text(&mut text, b" seconds")?;
        }
    }
    text.push(b'\n')?;
    Ok(text)
}
