//! Lines with something in front of each.
ghost use Rattle.std.specs.Prelude.{◌≡◌, ◌++◌, IfOk, OnOk, [], cond, true};
ghost use Rattle.commands.specs.Fronted.{fronted};

use std::alloc::{AllocError, Global};

/// Lines with this in front of each.
pub fn in_front_of_each(alloc: Global, front: &[u8], lines: &[u8]) -> Result<Vec<u8>, AllocError>
    ensures { IfOk result (λ text. text.items ≡ fronted front.now true lines.now) }
{
    let mut text = Vec::new(alloc);
    let mut begins = true;
    let mut left = lines;
    while let [octet, rest @ ..] = left {
        push_begin(&mut text, begins, front)?;
        text.push(*octet)?;
        begins = *octet == b'\n';
        left = rest;
    }
    Ok(text)
}

/// Appends what is in front of a line, where one begins.
fn push_begin(text: &mut Vec<u8>, begins: bool, front: &[u8]) -> Result<(), AllocError>
    ensures { OnOk result (text.new.items ≡ text.old.items ++ cond begins front.now []) }
{
    if begins {
        return text.extend_from_slice(front);
    }
    Ok(())
}
