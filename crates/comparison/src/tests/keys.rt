//! One P-256 key in eight usual spellings, and other keys, all by OpenSSL 3.0: `ecparam`, `ec`, `pkcs8`, `genpkey`;
//! those with attributes or of version 2 by `asn1parse -genconf` from the octets of the first one.
use crate::same::TwoDocuments;
use crate::same_key::same_key_text;
use crate::text::DocumentNames;
use pk_documents::kind::Kind;
use std::test::Fail;
use tlv_core::limits::Limits;

const KEY: &str = "\
    308187020100301306072a8648ce3d020106082a8648ce3d030107046d306b0201010420d8a6c803ed22ed8eb29784810248467bcdc7a434\
    8961a756dd8c4546c1b47743a144034200047700a2c43c2d3b2b3c7f09e53b67f820d3f2378fe89f6c469f2638f2d64c4cee155e20d7d36f\
    a0aa307f13cb35a02fdce7d1ddad9aa471868182104e8db733fc";

const KEY_ALONE: &str = "\
    3041020100301306072a8648ce3d020106082a8648ce3d030107042730250201010420d8a6c803ed22ed8eb29784810248467bcdc7a43489\
    61a756dd8c4546c1b47743";

const KEY_ATTRIBUTES: &str = "\
    3081a0020100301306072a8648ce3d020106082a8648ce3d030107046d306b0201010420d8a6c803ed22ed8eb29784810248467bcdc7a434\
    8961a756dd8c4546c1b47743a144034200047700a2c43c2d3b2b3c7f09e53b67f820d3f2378fe89f6c469f2638f2d64c4cee155e20d7d36f\
    a0aa307f13cb35a02fdce7d1ddad9aa471868182104e8db733fca017301506092a864886f70d01091431081e06006b00650079";

const KEY_ALONE_ATTRIBUTES: &str = "\
    305a020100301306072a8648ce3d020106082a8648ce3d030107042730250201010420d8a6c803ed22ed8eb29784810248467bcdc7a43489\
    61a756dd8c4546c1b47743a017301506092a864886f70d01091431081e06006b00650079";

const KEY_VERSION_2: &str = "\
    3081cb020101301306072a8648ce3d020106082a8648ce3d030107046d306b0201010420d8a6c803ed22ed8eb29784810248467bcdc7a434\
    8961a756dd8c4546c1b47743a144034200047700a2c43c2d3b2b3c7f09e53b67f820d3f2378fe89f6c469f2638f2d64c4cee155e20d7d36f\
    a0aa307f13cb35a02fdce7d1ddad9aa471868182104e8db733fc814200047700a2c43c2d3b2b3c7f09e53b67f820d3f2378fe89f6c469f26\
    38f2d64c4cee155e20d7d36fa0aa307f13cb35a02fdce7d1ddad9aa471868182104e8db733fc";

const KEY_ALONE_VERSION_2: &str = "\
    308185020101301306072a8648ce3d020106082a8648ce3d030107042730250201010420d8a6c803ed22ed8eb29784810248467bcdc7a434\
    8961a756dd8c4546c1b47743814200047700a2c43c2d3b2b3c7f09e53b67f820d3f2378fe89f6c469f2638f2d64c4cee155e20d7d36fa0aa\
    307f13cb35a02fdce7d1ddad9aa471868182104e8db733fc";

const SEC1: &str = "\
    30770201010420d8a6c803ed22ed8eb29784810248467bcdc7a4348961a756dd8c4546c1b47743a00a06082a8648ce3d030107a144034200\
    047700a2c43c2d3b2b3c7f09e53b67f820d3f2378fe89f6c469f2638f2d64c4cee155e20d7d36fa0aa307f13cb35a02fdce7d1ddad9aa471\
    868182104e8db733fc";

const SEC1_ALONE: &str = "\
    30310201010420d8a6c803ed22ed8eb29784810248467bcdc7a4348961a756dd8c4546c1b47743a00a06082a8648ce3d030107";

const SEC1_NO_CURVE: &str = "\
    306b0201010420d8a6c803ed22ed8eb29784810248467bcdc7a4348961a756dd8c4546c1b47743a144034200047700a2c43c2d3b2b3c7f09\
    e53b67f820d3f2378fe89f6c469f2638f2d64c4cee155e20d7d36fa0aa307f13cb35a02fdce7d1ddad9aa471868182104e8db733fc";

const OTHER: &str = "\
    308187020100301306072a8648ce3d020106082a8648ce3d030107046d306b0201010420bdeb7d51254832a8986e57251b85bf009aeb15ff\
    f66010296f5a5e06bf25204da144034200042a8f9cb8123ec1e59af1d72e2c556f073c9ef93d46cbd758af640db0196fd85377d2ace1f156\
    50e61c2bf9a6379eb50e1247b8df6806cb67b709cd11dffef03b";

const RSA: &str = "\
    30820154020100300d06092a864886f70d01010105000482013e3082013a020100024100bce38da7e5a0270dde6355aa6e161b4eb81f5bf0\
    19760dee95cd6d7176b78daadfaaa4bae9288c1bad46428f321df4c5fecc6461bbc7b692370849c9013fb3370203010001024100904df826\
    d0d2ed8336e704c7539b27f997c8bd604cd358097200a3200fe6631f5ade96d8f6da2f9934d9c1ffb0e77aad741ffb27c0de0cfa6d4c931b\
    fa311ee1022100ef07eaf3dfcfe0f42c962032071a8deae149b2718399580fa51cdceff906154d022100ca4c5e276b415c6a9fdcc9885e5f\
    7acac27873c3dbca152a82fea0b0f5ab5893022026c80915c2454f012eceb8b0853888b8080f55f556dda54cfc83ff50abfd91ad02206151\
    ebd9bad76ec63cb1d2a230046ee62c3816391afb54c366d1682cb982fcd10220485683c76e1cdaf11579ab0048498eb2f575914b998ec113\
    499c562b1c33f950";

const OTHER_RSA: &str = "\
    30820155020100300d06092a864886f70d01010105000482013f3082013b020100024100beae9e2a72a9b5ea0cf05d25b4cf104fea618c0b\
    6af73adcf6a2fce63e50b7810f56fa102516ec40d45ab24cf73816855310f2d94cfe8d6075953c20922be2790203010001024100a770161b\
    180cc65cfb77a59392adb0993c2ae41ab296dded61f5c53538cb101690b207b943b6393eea3578f9b7d0e6a78d1f9d168589f9754efb2d8c\
    79428eb1022100fc7e23aa70402d9b8fcbfa3fa541df1f5b090bb6f00230682fe792ab1830e5d3022100c154ae467b10845d9d4b2d5a4666\
    e4d0a96752477cbedf426f5970fb980e6b030220780d9df5b743bcabbfb693f9592135eed9c13651b852c22377cb9ae0413356c302210094\
    74c7429dfba7f90ef10c8976e84a2aa4fb0f268ff72e0fa0dba8b3ba26d02b02206bb704553bd31e0f31780f719085f7ec6ff80dd2aa0194\
    bce0f39cc99e29e1b9";

const PSS: &str = "\
    30820153020100300b06092a864886f70d01010a0482013f3082013b020100024100be611b2818e3bc7e66a545920b9605ed015f990b2139\
    324b6bd2dfc9518d21cd5a7d26a8ce2ac9d2fb94d018d70a7a54a1cd706a04bc9b94f87b4fb722a810190203010001024100baa04cd3d8da\
    5f2c76092c130802905a8ecf1d2338f56de55b94c3c60188dd895546061a0cc654944d01ef0966885a46398b249f653eb05baceb329a5cee\
    dc45022100e47ca079eaf2fe3b7bd3aa7665809b6fc283a7a3ce752aee81948cf387f5444f022100d54dc55c6af2e6cf1fae6b24a38a461e\
    dcea73da6b50d156b25bba19588e03170221008784dfcdd02bd5dcc422142deb202f914706bd6cabecd4cce7f08af57ac35f83022043b02b\
    4a19923d564b0a716bae0e0a146f2c635953a6d0d77f40067d5691b23f022061d748484905bb6c703e8ccbae620e9a33aa05e97f135cb4ad\
    6da15e9a57b8e9";

const CUT: &str = "3077";

/// The kind of each document, the documents, and the lines.
static ROWS: [(Kind, &str, Kind, &str, &str); 19] = [
    (Kind::Key, KEY, Kind::Key, KEY, "the same key\n"),
    (Kind::Key, KEY, Kind::Key, KEY_ALONE, "the same key\n"),
    (Kind::Key, KEY, Kind::Key, KEY_ATTRIBUTES, "the same key\n"),
    (
        Kind::Key,
        KEY,
        Kind::Key,
        KEY_ALONE_ATTRIBUTES,
        "the same key\n",
    ),
    (Kind::Key, KEY, Kind::Key, KEY_VERSION_2, "the same key\n"),
    (
        Kind::Key,
        KEY,
        Kind::Key,
        KEY_ALONE_VERSION_2,
        "the same key\n",
    ),
    (Kind::Key, KEY, Kind::Ec, SEC1, "the same key\n"),
    (
        Kind::Key,
        KEY_ALONE_VERSION_2,
        Kind::Ec,
        SEC1_ALONE,
        "the same key\n",
    ),
    (Kind::Ec, SEC1, Kind::Ec, SEC1_ALONE, "the same key\n"),
    (
        Kind::Ec,
        SEC1_ALONE,
        Kind::Key,
        KEY_ATTRIBUTES,
        "the same key\n",
    ),
    (Kind::Key, KEY, Kind::Key, OTHER, "another key\n"),
    (Kind::Ec, SEC1, Kind::Key, OTHER, "another key\n"),
    (Kind::Key, KEY, Kind::Key, RSA, "another key\n"),
    (Kind::Key, RSA, Kind::Key, RSA, "the same key\n"),
    (Kind::Key, RSA, Kind::Key, OTHER_RSA, "another key\n"),
    (
        Kind::Key,
        KEY,
        Kind::Key,
        PSS,
        "not compared: id-RSASSA-PSS is carried\n",
    ),
    (
        Kind::Key,
        PSS,
        Kind::Key,
        PSS,
        "not compared: id-RSASSA-PSS is carried\n",
    ),
    (
        Kind::Ec,
        SEC1_NO_CURVE,
        Kind::Key,
        KEY,
        "not compared: no curve is named\n",
    ),
    (
        Kind::Ec,
        CUT,
        Kind::Key,
        CUT,
        "a.der: fault at 2: Truncated\nb.der: fault at 2: Truncated\n",
    ),
];

#[test]
fn keys(rt: HostRuntime) -> Result<(), Fail> {
    let limits = Limits::new(32, 1048576).ok_or("limits")?;
    let names = DocumentNames {
        first: "a.der",
        second: "b.der",
    };
    for (kind, first, other_kind, second, line) in ROWS.iter() {
        let first = hex::decode(rt.alloc(), *first)?;
        let second = hex::decode(rt.alloc(), *second)?;
        let documents = TwoDocuments {
            first: first.as_slice(),
            second: second.as_slice(),
        };
        let (text, _) = same_key_text(rt.alloc(), documents, names, *kind, *other_kind, limits)?;
        assert_eq!(rt; text.as_str(), *line);
    }
    Ok(())
}
