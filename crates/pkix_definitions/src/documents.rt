//! The laws' premises on types: they hold of every type of document and part.
ghost use Rattle.pkix_definitions.specs.DocumentLaws.{DocumentsAreLawful};
ghost use Rattle.pkix_definitions.specs.ExtensionLaws.{ExtensionsAreLawful};

/// The rules of keys, of packages of them, of requests and of their parts judge values that are the same alike, and
/// give reasons of their own; no optional field is mistaken for another one.
pub fn documents_are_lawful()
    ensures { DocumentsAreLawful }
{}

/// The same of the types of extensions, of RSA's public keys and of parameters, which have no rules.
pub fn extensions_are_lawful()
    ensures { ExtensionsAreLawful }
{}
