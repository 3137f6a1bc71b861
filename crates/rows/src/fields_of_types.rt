//! The field readers of each type.
use crate::fields::Described;
use crate::line::Line;
use asn_elements::bits::Bits;
use asn_elements::element::Element;
use asn_elements::implicit::Implicit;
use asn_elements::integer::Int;
use asn_elements::text::Text;
use asn_lists::set_of::SetOf;
use asn_open_values::any::Any;
use pkcs10::info::CertificationRequestInfo;
use pkcs10::request::CertificationRequest;
use pkix_values::algorithm::AlgorithmIdentifier;
use pkix_values::attribute::Attribute;
use pkix_values::extension::Extension;
use pkix_values::name::{Name, NameItem};
use pkix_values::public_key::SubjectPublicKeyInfo;
use pkix_values::request_attribute::RequestAttribute;
use pkix_values::set_of_some::SetOfSome;
use pkix_values::version::Version;
use std::alloc::AllocError;

impl Described for Text {
    fn describe(&self, line: &mut Line) -> Result<(), AllocError> {
        line.number("tag", self.tag().number() as usize)?;
        line.octets("octets", self.octets())
    }
}

impl<T: Element> Described for SetOf<T> {
    fn describe(&self, line: &mut Line) -> Result<(), AllocError> {
        line.number("members", self.len())
    }
}

impl Described for Implicit<0, SetOf<Int>> {
    fn describe(&self, line: &mut Line) -> Result<(), AllocError> {
        line.number("members", self.value().len())
    }
}

impl Described for Any {
    fn describe(&self, line: &mut Line) -> Result<(), AllocError> {
        match self.oid() {
            Some(id) => line.octets("identifier", id.contents()),
            None => line.part("no identifier"),
        }
    }
}

impl<const LEAST: u8, const MOST: u8> Described for Version<LEAST, MOST> {
    fn describe(&self, line: &mut Line) -> Result<(), AllocError> {
        line.number("number", usize::from(self.number()))
    }
}

impl Described for AlgorithmIdentifier {
    fn describe(&self, line: &mut Line) -> Result<(), AllocError> {
        line.octets("algorithm", self.algorithm().contents())?;
        match self.parameters() {
            Some(parameters) => line.value("parameters", parameters),
            None => line.part("no parameters"),
        }
    }
}

impl Described for NameItem {
    fn describe(&self, line: &mut Line) -> Result<(), AllocError> {
        line.octets("type", self.id().contents())?;
        line.value("value", self.value())
    }
}

impl<T: Described + Element> Described for SetOfSome<T> {
    fn describe(&self, line: &mut Line) -> Result<(), AllocError> {
        line.number("items", self.items().len())?;
        for i in 0..self.items().len() {
            if let Some(item) = self.items().get(i) {
                item.describe(line)?;
            }
        }
        Ok(())
    }
}

impl Described for Name {
    fn describe(&self, line: &mut Line) -> Result<(), AllocError> {
        if self.rdns().is_empty() {
            return line.part("no parts");
        }
        line.number("parts", self.rdns().len())?;
        for i in 0..self.rdns().len() {
            if let Some(part) = self.rdns().get(i) {
                part.describe(line)?;
            }
        }
        Ok(())
    }
}

pub fn describe_bits(line: &mut Line, bits: &Bits) -> Result<(), AllocError> {
    line.number("unused bits", usize::from(bits.unused()))?;
    line.octets("of", bits.octets())
}

impl Described for SubjectPublicKeyInfo {
    fn describe(&self, line: &mut Line) -> Result<(), AllocError> {
        self.algorithm().describe(line)?;
        line.part("key")?;
        describe_bits(line, self.key())
    }
}

impl Described for Attribute {
    fn describe(&self, line: &mut Line) -> Result<(), AllocError> {
        line.octets("type", self.id().contents())?;
        line.number("values", self.values().len())
    }
}

impl Described for Extension {
    fn describe(&self, line: &mut Line) -> Result<(), AllocError> {
        line.octets("extension", self.id().contents())?;
        line.part(if self.critical() {
            "critical"
        } else {
            "not critical"
        })?;
        line.octets("value", self.value().octets())
    }
}

impl Described for RequestAttribute {
    fn describe(&self, line: &mut Line) -> Result<(), AllocError> {
        line.octets("type", self.id().contents())?;
        match self.plain() {
            Some(values) => line.number("plain values", values.len())?,
            None => line.part("not plain")?,
        }
        let Some(lists) = self.extensions() else {
            return line.part("no extensions");
        };
        line.number("lists", lists.len())?;
        for i in 0..lists.len() {
            if let Some(list) = lists.get(i) {
                line.number("extensions", list.len())?;
                for k in 0..list.len() {
                    if let Some(extension) = list.get(k) {
                        extension.describe(line)?;
                    }
                }
            }
        }
        Ok(())
    }
}

impl Described for CertificationRequestInfo {
    fn describe(&self, line: &mut Line) -> Result<(), AllocError> {
        line.part("subject")?;
        self.subject().describe(line)?;
        self.key_info().describe(line)?;
        let Some(attributes) = self.attributes() else {
            return line.part("no attributes");
        };
        line.number("attributes", attributes.len())?;
        for i in 0..attributes.len() {
            if let Some(attribute) = attributes.get(i) {
                line.octets("type", attribute.id().contents())?;
            }
        }
        Ok(())
    }
}

impl Described for CertificationRequest {
    fn describe(&self, line: &mut Line) -> Result<(), AllocError> {
        self.info().describe(line)?;
        line.part("signature")?;
        self.signature_algorithm().describe(line)?;
        describe_bits(line, self.signature())
    }
}
