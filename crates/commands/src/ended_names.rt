//! Names that are ended by an octet 0, as `find -print0` writes them.
ghost use Rattle.std.specs.Prelude.{◌≡◌, ◌++◌, ◌∷◌, IfErr, IfOk, None, OnOk, Option, Some, [], true};
ghost use Rattle.commands.specs.NameLists.{TakesOctet};
ghost use Rattle.commands.specs.declared.names.NamesFault.TheVariants.{Read};

use crate::names::{Names, NamesFault};
use std::alloc::{AllocError, Global};
use tlv_core::source::{Failed, Source};

/// A name has as many octets, at most.
const MOST: usize = 65_536;

/// Most names have as many, at most.
const USUAL: usize = 64;

/// The names that are known of a source, each ended by an octet 0; the last one may be ended by the end.
#[derive(Drop)]
pub struct EndedNames<R: Source> {
    src: R,
}

impl<R: Source> EndedNames<R> {
    ghost use Rattle.commands.specs.NameLists.{source_of};

    pub fn new(src: R) -> EndedNames<R>
        ensures { source_of result ≡ src }
    {
        EndedNames { src }
    }
}

impl<R: Source> Names for EndedNames<R> {
    ghost use Rattle.std.specs.Prelude.{[]};
    ghost use Rattle.commands.specs.NameLists.{StopsReading, known_names, source_of};

    ghost left = { λ list. known_names [] (R.remaining (source_of list)) };

    ghost stops = { λ old new. StopsReading (R.has_failed (source_of new))
        (R.remaining (source_of old)) (R.remaining (source_of new)) };

    fn next_name(&mut self, alloc: Global) -> Result<Option<Vec<u8>>, NamesFault> {
        let mut name = Vec::new(alloc);
        for _ in 0..=MOST {
            match next_octet(&mut self.src)? {
                Some(0) => return Ok(Some(name)),
                Some(octet) => {
                    if push(&mut name, octet).is_err() {
                        return Err(NamesFault::Memory);
                    }
                }
                None if name.is_empty() => return Ok(None),
                None => return Ok(Some(name)),
            }
        }
        Err(NamesFault::TooLong)
    }
}

/// Appends an octet. Room for a name of usual length is asked for with the first one.
fn push(name: &mut Vec<u8>, octet: u8) -> Result<(), AllocError>
    ensures { OnOk result (name.new.items ≡ name.old.items ++ octet ∷ []) }
{
    if name.is_empty() {
        name.reserve(USUAL)?;
    }
    name.push(octet)?;
    Ok(())
}

/// The next octet, or `None` at the end.
fn next_octet<R: Source>(src: &mut R) -> Result<Option<u8>, NamesFault>
    ensures octet { IfOk result (TakesOctet (R.remaining src.old) (R.remaining src.new)) }
    ensures failed { IfErr result (λ fault. (fault ≡ Read) × (R.has_failed src.new ≡ true)) }
{
    if src.failed() {
        return Err(NamesFault::Read);
    }
    if let [octet, ..] = src.held() {
        let octet = *octet;
        src.pass(1);
        return Ok(Some(octet));
    }
    let mut room = [0u8; 1];
    match src.read(&mut room) {
        Ok(0) => Ok(None),
        Ok(_) => Ok(Some(room[0])),
        Err(Failed) => Err(NamesFault::Read),
    }
}
