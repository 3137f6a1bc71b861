//! The path of a field.
ghost use Rattle.std.specs.Prelude.{◌≡◌, IfOk, OnOk, string_bytes};
ghost use Rattle.reports.specs.Paths.{path_text, with_name, with_root, with_step, with_steps};

use crate::text::push_between;
use asn_names::element::Step;
use std::alloc::{AllocError, Global};

/// The path of the field that a path from the outermost element leads to; of that element itself the name of its type.
pub fn path_text(alloc: Global, root: &str, path: &[Step]) -> Result<String, AllocError>
    ensures { IfOk result (λ text. string_bytes text ≡ path_text root.now path.now) }
{
    let mut text = String::new(alloc);
    push_path(&mut text, path)?;
    push_root(&mut text, root)?;
    Ok(text)
}

/// The name of the outermost element's type, where there is no path.
pub(crate) fn push_root(text: &mut String, root: &str) -> Result<(), AllocError>
    ensures { OnOk result (string_bytes text.new ≡ with_root root.now (string_bytes text.old)) }
{
    if text.as_str().is_empty() {
        text.push_str(root)
    } else {
        Ok(())
    }
}

/// A path after the path to where it begins.
pub(crate) fn push_path(text: &mut String, path: &[Step]) -> Result<(), AllocError>
    ensures { OnOk result (string_bytes text.new ≡ with_steps (string_bytes text.old) path.now) }
{
    let mut rest = path;
    while let [step, after @ ..] = rest {
        push_step(text, *step)?;
        rest = after;
    }
    Ok(())
}

/// A step after the path to where it begins.
#[tactic(auto, unfolding(crate::specs::Paths::with_step))]
pub(crate) fn push_step(text: &mut String, step: Step) -> Result<(), AllocError>
    ensures { OnOk result (string_bytes text.new ≡ with_step (string_bytes text.old) step) }
{
    match step {
        Step::Outermost | Step::Outside => Ok(()),
        Step::Field(name) => push_name(text, name),
        Step::Member(number) => push_between(text, "[", number, "]"),
        Step::Segment(number) => push_between(text, "{", number, "}"),
    }
}

fn push_name(text: &mut String, name: &str) -> Result<(), AllocError>
    ensures { OnOk result (string_bytes text.new ≡ with_name (string_bytes text.old) name.now) }
{
    if name.is_empty() {
        return Ok(());
    }
    if !text.as_str().is_empty() {
        text.push_str(".")?;
    }
    text.push_str(name)
}
