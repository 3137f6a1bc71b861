//! Documents of keys and certification requests as lines of text (`docs/formats.md`).
//!
//! `texts` has octets and bits, `lines` what one line says and the members of lists and sets, `attributes`, `keys` and
//! `requests` the lines of what documents are made of; `laws` has a law on these lines.
//!
//! Proved: the text of a document is `document_lines` of `specs/Shown.antt`, wherever there is memory for it, and
//! private octets change nothing in these lines but numbers of octets (`specs/PublicFields.antt`).
#![tactic(auto)]

ghost use Rattle.std.specs.Prelude.{◌≡◌, ◌++◌, IfOk, OnOk, codes, string_bytes};
ghost use Rattle.pk_documents.specs.KindRows.{word_of};
ghost use Rattle.pk_show.specs.Lines.{line};
ghost use Rattle.pk_show.specs.Shown.{document_lines, part_lines};

mod attributes;
mod keys;
pub mod laws;
mod lines;
mod requests;
mod shown;
mod texts;

use crate::keys::{push_ec_key, push_encrypted_key, push_package, push_public_key};
use crate::requests::push_request;
use crate::shown::Shown;
use pk_documents::document::Document;
use pk_documents::kind::Kind;
use std::alloc::{AllocError, Global};

/// What the document is, in lines, each ended by a line feed. Private octets are told by their number alone.
pub fn show_text(alloc: Global, document: &Document) -> Result<String, AllocError>
    ensures { IfOk result (λ text. string_bytes text ≡ document_lines document.now) }
{
    let mut text = String::new(alloc);
    push_document(alloc, &mut text, document)?;
    Ok(text)
}

fn push_document(alloc: Global, text: &mut String, document: &Document) -> Result<(), AllocError>
    ensures { OnOk result (string_bytes text.new ≡ string_bytes text.old
        ++ document_lines document.now) }
{
    push_kind(text, document.kind())?;
    push_parts(alloc, text, document)
}

/// The line that says the kind.
#[tactic(auto, unfolding(crate::specs::Lines::line))]
fn push_kind(text: &mut String, kind: Kind) -> Result<(), AllocError>
    ensures { OnOk result (string_bytes text.new ≡ string_bytes text.old
        ++ line (codes "kind: ") (word_of kind)) }
{
    text.push_str("kind: ")?;
    text.push_str(kind.row().word)?;
    text.push_str("\n")
}

/// The lines after that one.
fn push_parts(alloc: Global, text: &mut String, document: &Document) -> Result<(), AllocError>
    ensures { OnOk result (string_bytes text.new ≡ string_bytes text.old
        ++ part_lines document.now) }
{
    match document {
        Document::Key(key) => key.push_lines(alloc, text),
        Document::Ec(key) => {
            push_ec_key(alloc, text, "private key: ", "curve: ", "public key: ", key)
        }
        Document::Request(request) => push_request(alloc, text, request),
        Document::Public(key) => {
            push_public_key(alloc, text, "algorithm: ", "parameters: ", key)
        }
        Document::Encrypted(key) => push_encrypted_key(alloc, text, key),
        Document::Package(keys) => push_package(alloc, text, keys),
    }
}
