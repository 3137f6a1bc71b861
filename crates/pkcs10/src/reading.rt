//! The fields of a request and of what it asks to be certified, read and judged as they are listed.
use crate::info::{self, InfoFields};
use crate::request::{self, RequestFields};
use asn_fields::fields::Next;
use asn_fields::sequence::FirstFields;
use ber_pull::pull::Pull;
use std::alloc::Global;
use tlv_core::fault::ReadError;
use tlv_core::limits::Limits;
use tlv_core::source::Source;

impl FirstFields for InfoFields {
    fn read_first<R: Source>(
        alloc: Global,
        pull: &mut Pull<'_, R>,
        next: &mut Next,
    ) -> Result<InfoFields, ReadError> {
        match <info::Listed as FirstFields>::read_first(alloc, pull, next) {
            Ok(listed) => Ok(InfoFields(listed)),
            Err(error) => Err(error),
        }
    }

    fn judge_first(octets: &[u8], limits: Limits, left: u8) -> Option<&[u8]> {
        let rest = <info::Listed as FirstFields>::judge_first(octets, limits, left)?;
        Some(rest)
    }
}

impl FirstFields for RequestFields {
    fn read_first<R: Source>(
        alloc: Global,
        pull: &mut Pull<'_, R>,
        next: &mut Next,
    ) -> Result<RequestFields, ReadError> {
        match <request::Listed as FirstFields>::read_first(alloc, pull, next) {
            Ok(listed) => Ok(RequestFields(listed)),
            Err(error) => Err(error),
        }
    }

    fn judge_first(octets: &[u8], limits: Limits, left: u8) -> Option<&[u8]> {
        let rest = <request::Listed as FirstFields>::judge_first(octets, limits, left)?;
        Some(rest)
    }
}
