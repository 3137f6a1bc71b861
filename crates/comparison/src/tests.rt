//! Pairs of documents by OpenSSL 3.0 (`genpkey`, `ec`, `pkcs8`, `req`) and of `examples/`, and what they are to each
//! other; attributes with several values were put in by hand. The fields and the values were worked out by hand from
//! what `openssl asn1parse` says of each.
mod keys;

use crate::same::{Sameness, Style, TwoDocuments, same_text};
use crate::text::DocumentNames;
use pk_documents::kind::Kind;
use std::test::Fail;
use tlv_core::limits::Limits;

const SMALLEST: &str = "\
    302e020100300506032b657004220420000102030405060708090a0b0c0d0e0f101112131415161718191a1b1c1d1e1f";

const LONG_LENGTHS: &str = "\
    30840000002e020100300506032b657004220420000102030405060708090a0b0c0d0e0f101112131415161718191a1b1c1d1e1f";

const CUT_SHORT: &str = "302e020100300506032b65700422042000010203";

const FOLLOWED: &str = "\
    302e020100300506032b657004220420000102030405060708090a0b0c0d0e0f101112131415161718191a1b1c1d1e1f00";

const RFC8410: &str = "\
    3072020101300506032b657004220420d4ee72dbf913584ad5b6d8f1f769f8ad3afe7c28cbf1d4fbe097a88f44755842a01f301d060a2a86\
    4886f70d01090914310f0c0d437572646c652043686169727381210019bf44096984cdfe8541bac167dc3b96c85086aa30b6b6cb0c5c38ad\
    703166e1";

const P256: &str = "\
    308187020100301306072a8648ce3d020106082a8648ce3d030107046d306b0201010420d8a6c803ed22ed8eb29784810248467bcdc7a434\
    8961a756dd8c4546c1b47743a144034200047700a2c43c2d3b2b3c7f09e53b67f820d3f2378fe89f6c469f2638f2d64c4cee155e20d7d36f\
    a0aa307f13cb35a02fdce7d1ddad9aa471868182104e8db733fc";

const P256_ALONE: &str = "\
    3041020100301306072a8648ce3d020106082a8648ce3d030107042730250201010420d8a6c803ed22ed8eb29784810248467bcdc7a43489\
    61a756dd8c4546c1b47743";

const REQUEST_A: &str = "\
    30818b303f020100300c310a300806035504030c0161302a300506032b65700321007f72d65e713109577a247bec927eadabdd3d10d721d6\
    f3ad84964db8fe5041d0a000300506032b6570034100976c312adc61c54257b1452937fa92330b113de9665cb8b13b08c77a461429ffb2b8\
    9070628cd398d8ae12d4b49c9013c29ffcdcfe7308d469cb713baf10cf08";

const REQUEST_B: &str = "\
    30818b303f020100300c310a300806035504030c0162302a300506032b65700321007f72d65e713109577a247bec927eadabdd3d10d721d6\
    f3ad84964db8fe5041d0a000300506032b6570034100364fa952555c1b80b7232ecab3bc5ed637e189ca6360628f334d9480d9ebe2525986\
    41a97dbf63ae47184cc7e69ce66be4a43ea886bc9169bc13f550381ff502";

const REQUEST_PRINTABLE: &str = "\
    30818b303f020100300c310a30080603550403130161302a300506032b65700321007f72d65e713109577a247bec927eadabdd3d10d721d6\
    f3ad84964db8fe5041d0a000300506032b6570034100a9cb047828783f6fd0f41095f257287fe49b53cf2f74fd0e253749741e5f02d0c361\
    e25a05025a6bf9350aa75908fcf0a8f9364bb873f3ecbbf99dc33aacd907";

const REQUEST_SAN: &str = "\
    3081aa305e020100300c310a300806035504030c0161302a300506032b65700321007f72d65e713109577a247bec927eadabdd3d10d721d6\
    f3ad84964db8fe5041d0a01f301d06092a864886f70d01090e3110300e300c0603551d1104053003820161300506032b657003410040e1d7\
    2eb307192f62c86f279b70720a771be7aff8efea60ae41f48a7c115118b94c1f40e372b7029c92848942c74447eb250e48ed62c314a72360\
    27f1af8d09";

const REQUEST_USAGE: &str = "\
    3081a9305d020100300c310a300806035504030c0161302a300506032b65700321007f72d65e713109577a247bec927eadabdd3d10d721d6\
    f3ad84964db8fe5041d0a01e301c06092a864886f70d01090e310f300d300b0603551d0f040403020780300506032b6570034100f5a63e38\
    d349556caca5ff099e5543f40a12165447326afb2d259e5152f7e2975ca7a2b4a038536a813ce525ef799dd753fd72542bdde32de9179d0b\
    a83d0e07";

const REQUEST_18: &str = "\
    3082016c3082011e0201003081ea310b3009060355040b0c023130310b3009060355040b0c023131310b3009060355040b0c023132310b30\
    09060355040b0c023133310b3009060355040b0c023134310b3009060355040b0c023135310b3009060355040b0c023136310b3009060355\
    040b0c023137310b3009060355040b0c023138310b3009060355040b0c023139310b3009060355040b0c023230310b3009060355040b0c02\
    3231310b3009060355040b0c023232310b3009060355040b0c023233310b3009060355040b0c023234310b3009060355040b0c023235310b\
    3009060355040b0c023236310b3009060355040b0c023237302a300506032b65700321007f72d65e713109577a247bec927eadabdd3d10d7\
    21d6f3ad84964db8fe5041d0a000300506032b6570034100079f9298bfb369a00c80f1e728e3bdbcfb5668c4b593bbced2be7e287bf0bcfe\
    2db1704768de395a3b25110a86347892510ca0318be25dff0a69183c20502401";

const REQUEST_X18: &str = "\
    3082017e308201300201003081fc310c300a060355040b0c03783130310c300a060355040b0c03783131310c300a060355040b0c03783132\
    310c300a060355040b0c03783133310c300a060355040b0c03783134310c300a060355040b0c03783135310c300a060355040b0c03783136\
    310c300a060355040b0c03783137310c300a060355040b0c03783138310c300a060355040b0c03783139310c300a060355040b0c03783230\
    310c300a060355040b0c03783231310c300a060355040b0c03783232310c300a060355040b0c03783233310c300a060355040b0c03783234\
    310c300a060355040b0c03783235310c300a060355040b0c03783236310c300a060355040b0c03783237302a300506032b65700321007f72\
    d65e713109577a247bec927eadabdd3d10d721d6f3ad84964db8fe5041d0a000300506032b65700341001f8bb8799d09bfece1198041646c\
    ce8297dbe91dbfa9f5fdc6eac35f35cd499f3861436689805f5534166847071171c5807ef62a8af990b1a19fc82b7e266d09";

const VALUES_5_9: &str = "\
    303f020100300506032b657004220420000102030405060708090a0b0c0d0e0f101112131415161718191a1b1c1d1e1fa00f300d06032a03\
    043106040105040109";

const VALUES_5_11: &str = "\
    303f020100300506032b657004220420000102030405060708090a0b0c0d0e0f101112131415161718191a1b1c1d1e1fa00f300d06032a03\
    04310604010504010b";

const VALUES_1_5: &str = "\
    303f020100300506032b657004220420000102030405060708090a0b0c0d0e0f101112131415161718191a1b1c1d1e1fa00f300d06032a03\
    043106040101040105";

const VALUE_5: &str = "\
    303c020100300506032b657004220420000102030405060708090a0b0c0d0e0f101112131415161718191a1b1c1d1e1fa00c300a06032a03\
    043103040105";

const REQUEST_SECRET: &str = "\
    30633056020100300c310a300806035504030c0161302a300506032b65700321007f72d65e713109577a247bec927eadabdd3d10d721d6f3\
    ad84964db8fe5041d0a017301506092a864886f70d01090731080c06736563726574300506032b657003020007";

const REQUEST_HIDDEN: &str = "\
    30643057020100300c310a300806035504030c0161302a300506032b65700321007f72d65e713109577a247bec927eadabdd3d10d721d6f3\
    ad84964db8fe5041d0a018301606092a864886f70d01090731090c0768696464656e21300506032b657003020007";

const REQUEST_EXTENSIONS_TWICE: &str = "\
    307a306d020100300c310a300806035504030c0161302a300506032b65700321007f72d65e713109577a247bec927eadabdd3d10d721d6f3\
    ad84964db8fe5041d0a02e302c06092a864886f70d01090e311f300d300b0603551d0f040403020780300e300c0603551d11040530038201\
    61300506032b657003020007";

const REQUEST_EXTENSIONS: &str = "\
    306b305e020100300c310a300806035504030c0161302a300506032b65700321007f72d65e713109577a247bec927eadabdd3d10d721d6f3\
    ad84964db8fe5041d0a01f301d06092a864886f70d01090e3110300e300c0603551d1104053003820161300506032b657003020007";

/// The kind, two documents, and the lines.
static ROWS: [(Kind, &str, &str, &str); 17] = [
    // The lengths of one have more octets than they need.
    (Kind::Key, SMALLEST, LONG_LENGTHS, "the same document\n"),
    // Two refused documents are never the same, not even where they have the same octets.
    (
        Kind::Key,
        CUT_SHORT,
        CUT_SHORT,
        "a.der: fault at 20: Truncated\nb.der: fault at 20: Truncated\n",
    ),
    (
        Kind::Key,
        SMALLEST,
        FOLLOWED,
        "b.der: fault at 48: Trailing\n",
    ),
    (
        Kind::Key,
        CUT_SHORT,
        SMALLEST,
        "a.der: fault at 20: Truncated\n",
    ),
    (
        Kind::Key,
        P256,
        P256_ALONE,
        "another document: privateKey.publicKey\n  a.der: 65 octets\n  b.der: absent\n",
    ),
    (
        Kind::Key,
        RFC8410,
        SMALLEST,
        "another document: version, privateKey, attributes, publicKey\n\
        \x20 a.der: 1\n  b.der: 0\n  a.der: 32 octets\n  b.der: 32 octets\n\
        \x20 a.der: 31 octets\n  b.der: absent\n  a.der: 32 octets\n  b.der: absent\n",
    ),
    (
        Kind::Request,
        REQUEST_A,
        REQUEST_B,
        "another document: certificationRequestInfo.subject[0][0].value (commonName), signature\n\
        \x20 a.der: UTF8String 'a'\n  b.der: UTF8String 'b'\n  a.der: 64 octets\n  b.der: 64 octets\n",
    ),
    (
        Kind::Request,
        REQUEST_A,
        REQUEST_PRINTABLE,
        "another document: certificationRequestInfo.subject[0][0].value (commonName), signature\n\
        \x20 a.der: UTF8String 'a'\n  b.der: PrintableString 'a'\n  a.der: 64 octets\n  b.der: 64 octets\n",
    ),
    (
        Kind::Request,
        REQUEST_A,
        REQUEST_SAN,
        "another document: certificationRequestInfo.attributes[0] (extensionRequest), signature\n\
        \x20 a.der: absent\n  b.der: 29 octets\n  a.der: 64 octets\n  b.der: 64 octets\n",
    ),
    (
        Kind::Request,
        REQUEST_SAN,
        REQUEST_USAGE,
        "another document: certificationRequestInfo.attributes[0].values[0][0].extnID (subjectAltName), \
        certificationRequestInfo.attributes[0].values[0][0].extnValue (subjectAltName), signature\n\
        \x20 a.der: subjectAltName (2.5.29.17)\n  b.der: keyUsage (2.5.29.15)\n\
        \x20 a.der: 3 octets\n  b.der: 2 octets\n  a.der: 64 octets\n  b.der: 64 octets\n",
    ),
    // Private values of an attribute are shown all at once: which of them differ in DER order says which is the larger.
    (
        Kind::Key,
        VALUES_5_9,
        VALUES_5_11,
        "another document: attributes[0].values (1.2.3.4)\n  a.der: 6 octets\n  b.der: 6 octets\n",
    ),
    (
        Kind::Key,
        VALUES_5_9,
        VALUES_1_5,
        "another document: attributes[0].values (1.2.3.4)\n  a.der: 6 octets\n  b.der: 6 octets\n",
    ),
    (
        Kind::Key,
        VALUES_5_9,
        VALUE_5,
        "another document: attributes[0].values (1.2.3.4)\n  a.der: 6 octets\n  b.der: 3 octets\n",
    ),
    (
        Kind::Request,
        REQUEST_SECRET,
        REQUEST_HIDDEN,
        "another document: certificationRequestInfo.attributes[0].values (challengePassword)\n\
        \x20 a.der: 8 octets\n  b.der: 9 octets\n",
    ),
    // So they are where the other ones are public; which of these differ is shown.
    (
        Kind::Request,
        REQUEST_EXTENSIONS,
        REQUEST_SECRET,
        "another document: certificationRequestInfo.attributes[0].type (extensionRequest), \
        certificationRequestInfo.attributes[0].values (extensionRequest)\n\
        \x20 a.der: extensionRequest (1.2.840.113549.1.9.14)\n\
        \x20 b.der: challengePassword (1.2.840.113549.1.9.7)\n\
        \x20 a.der: 16 octets\n  b.der: 8 octets\n",
    ),
    (
        Kind::Request,
        REQUEST_EXTENSIONS,
        REQUEST_EXTENSIONS_TWICE,
        "another document: certificationRequestInfo.attributes[0].values[0][0].extnID (subjectAltName), \
        certificationRequestInfo.attributes[0].values[0][0].extnValue (subjectAltName), \
        certificationRequestInfo.attributes[0].values[1] (extensionRequest)\n\
        \x20 a.der: subjectAltName (2.5.29.17)\n  b.der: keyUsage (2.5.29.15)\n\
        \x20 a.der: 3 octets\n  b.der: 2 octets\n  a.der: absent\n  b.der: 14 octets\n",
    ),
    // Of 18 names and a signature that differ 16 are shown.
    (
        Kind::Request,
        REQUEST_18,
        REQUEST_X18,
        "another document: \
        certificationRequestInfo.subject[0][0].value (organizationalUnitName), \
        certificationRequestInfo.subject[1][0].value (organizationalUnitName), \
        certificationRequestInfo.subject[2][0].value (organizationalUnitName), \
        certificationRequestInfo.subject[3][0].value (organizationalUnitName), \
        certificationRequestInfo.subject[4][0].value (organizationalUnitName), \
        certificationRequestInfo.subject[5][0].value (organizationalUnitName), \
        certificationRequestInfo.subject[6][0].value (organizationalUnitName), \
        certificationRequestInfo.subject[7][0].value (organizationalUnitName), \
        certificationRequestInfo.subject[8][0].value (organizationalUnitName), \
        certificationRequestInfo.subject[9][0].value (organizationalUnitName), \
        certificationRequestInfo.subject[10][0].value (organizationalUnitName), \
        certificationRequestInfo.subject[11][0].value (organizationalUnitName), \
        certificationRequestInfo.subject[12][0].value (organizationalUnitName), \
        certificationRequestInfo.subject[13][0].value (organizationalUnitName), \
        certificationRequestInfo.subject[14][0].value (organizationalUnitName), \
        certificationRequestInfo.subject[15][0].value (organizationalUnitName) and 3 more\n\
        \x20 a.der: UTF8String '10'\n  b.der: UTF8String 'x10'\n\
        \x20 a.der: UTF8String '11'\n  b.der: UTF8String 'x11'\n\
        \x20 a.der: UTF8String '12'\n  b.der: UTF8String 'x12'\n\
        \x20 a.der: UTF8String '13'\n  b.der: UTF8String 'x13'\n\
        \x20 a.der: UTF8String '14'\n  b.der: UTF8String 'x14'\n\
        \x20 a.der: UTF8String '15'\n  b.der: UTF8String 'x15'\n\
        \x20 a.der: UTF8String '16'\n  b.der: UTF8String 'x16'\n\
        \x20 a.der: UTF8String '17'\n  b.der: UTF8String 'x17'\n\
        \x20 a.der: UTF8String '18'\n  b.der: UTF8String 'x18'\n\
        \x20 a.der: UTF8String '19'\n  b.der: UTF8String 'x19'\n\
        \x20 a.der: UTF8String '20'\n  b.der: UTF8String 'x20'\n\
        \x20 a.der: UTF8String '21'\n  b.der: UTF8String 'x21'\n\
        \x20 a.der: UTF8String '22'\n  b.der: UTF8String 'x22'\n\
        \x20 a.der: UTF8String '23'\n  b.der: UTF8String 'x23'\n\
        \x20 a.der: UTF8String '24'\n  b.der: UTF8String 'x24'\n\
        \x20 a.der: UTF8String '25'\n  b.der: UTF8String 'x25'\n",
    ),
];

#[test]
fn pairs(rt: HostRuntime) -> Result<(), Fail> {
    let limits = Limits::new(32, 1048576).ok_or("limits")?;
    let names = DocumentNames {
        first: "a.der",
        second: "b.der",
    };
    for (kind, first, second, lines) in ROWS.iter() {
        let first = hex::decode(rt.alloc(), *first)?;
        let second = hex::decode(rt.alloc(), *second)?;
        let documents = TwoDocuments {
            first: first.as_slice(),
            second: second.as_slice(),
        };
        let (text, sameness) = same_text(rt.alloc(), documents, names, *kind, limits, Style::Text)?;
        assert_eq!(rt; text.as_str(), *lines);
        assert!(rt; lines.starts_with(word(sameness)));
    }
    Ok(())
}

fn word(sameness: Sameness) -> &'static str {
    match sameness {
        Sameness::Same => "the",
        Sameness::Another => "another",
        Sameness::Refused(Some(_), _) => "a.der:",
        Sameness::Refused(None, _) => "b.der:",
    }
}
