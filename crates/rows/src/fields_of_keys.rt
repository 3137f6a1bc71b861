//! The field readers of each type of private keys.
use crate::fields::Described;
use crate::fields_of_types::describe_bits;
use crate::line::Line;
use asn_elements::der_text::DerText;
use pkcs8::encrypted_key::EncryptedKey;
use private_keys::curve_key::CurveKey;
use private_keys::ec_private_key::EcPrivateKey;
use private_keys::other_prime_info::OtherPrimeInfo;
use private_keys::rsa_private_key::RsaPrivateKey;
use std::alloc::AllocError;

impl Described for EcPrivateKey {
    fn describe(&self, line: &mut Line) -> Result<(), AllocError> {
        line.octets("key", self.key().octets())?;
        match self.curve() {
            Some(curve) => line.octets("curve", curve.contents())?,
            None => line.part("no curve")?,
        }
        match self.public_key() {
            Some(key) => {
                line.part("public key")?;
                describe_bits(line, key)
            }
            None => line.part("no public key"),
        }
    }
}

impl Described for CurveKey {
    fn describe(&self, line: &mut Line) -> Result<(), AllocError> {
        line.octets("key", self.key().octets())
    }
}

impl Described for EncryptedKey {
    fn describe(&self, line: &mut Line) -> Result<(), AllocError> {
        self.algorithm().describe(line)?;
        line.octets("octets", self.octets().octets())
    }
}

impl Described for OtherPrimeInfo {
    fn describe(&self, line: &mut Line) -> Result<(), AllocError> {
        line.octets("prime", self.prime().contents())?;
        line.octets("exponent", self.exponent().contents())?;
        line.octets("coefficient", self.coefficient().contents())
    }
}

impl Described for RsaPrivateKey {
    fn describe(&self, line: &mut Line) -> Result<(), AllocError> {
        line.number("version", usize::from(self.version()))?;
        for i in 0..9 {
            match self.number(i) {
                Some(contents) => line.octets("number", contents)?,
                None => line.part("no number")?,
            }
        }
        line.number("others", self.others())?;
        line.number("size", self.size() as usize)
    }
}
