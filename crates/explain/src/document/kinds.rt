//! The kinds of documents, by their words and their types.
ghost use Rattle.std.specs.Prelude.{◌≡◌};
ghost use Rattle.pk_documents.specs.KindRows.{type_name_of, word_of};
ghost use Rattle.explain.specs.Guesses.{deciding_field};
ghost use Rattle.explain.specs.Shapes.{IsShapeOf};

use pk_documents::kind::Kind;
use pkix_shapes::documents;
use pkix_shapes::shape::Shape;
use reports::report::KindWords;

/// The type of a kind's documents, with the names of its fields, and with what in it is private.
pub(crate) fn shape_of(kind: Kind) -> &'static Shape
    ensures { IsShapeOf kind result }
{
    match kind {
        Kind::Key => documents::key(),
        Kind::Ec => documents::ec_key(),
        Kind::Request => documents::request(),
        Kind::Public => documents::public_key(),
        Kind::Encrypted => documents::encrypted_key(),
        Kind::Package => documents::package(),
    }
}

/// A kind by the words of the program and of the standard.
pub(crate) fn words_of(kind: Kind) -> KindWords
    ensures word { result.word.now ≡ word_of kind }
    ensures type_name { result.type_name.now ≡ type_name_of kind }
{
    let row = kind.row();
    KindWords {
        word: row.word,
        type_name: row.type_name,
    }
}

/// The field up to which the first elements of a kind's documents decides the kind.
pub(crate) fn deciding_field(kind: Kind) -> &'static str
    ensures { result.now ≡ deciding_field kind }
{
    match kind {
        Kind::Key | Kind::Ec | Kind::Package => "privateKey",
        Kind::Request => "subjectPKInfo",
        Kind::Public => "subjectPublicKey",
        Kind::Encrypted => "encryptedData",
    }
}
