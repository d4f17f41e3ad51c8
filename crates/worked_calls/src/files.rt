//! The files of the product of two words, and those of two products, in memory.

use outer_io::MapFiles;
use std::alloc::{AllocError, Global};
use std::collections::BTreeMap;

/// The names of files, and their texts.
pub type Texts = [(&'static str, &'static str); 5];

/// The circuit of a product.
const CIRCUIT: &str = "1 3\n2 1 1\n1 1\n2 1 0 1 2 MUL\n";

/// The job of one product, in which a gives 5 and b gives 7, and c reads the product.
pub const PRODUCT: Texts = [
    (
        "d/job.toml",
        "version = 1\n\
         ring_bits = 8\n\
         parties = [\"a\", \"b\", \"c\"]\n\
         formula = \"2 of (a, b, c)\"\n\
         hosts = [\"first.example\", \"second.example\", \"third.example\"]\n\
         port = 4000\n\
         [[session]]\n\
         circuit = \"mul.txt\"\n\
         layout = \"ring\"\n\
         owners = [\"a\", \"b\"]\n\
         readers = [[\"c\"]]\n",
    ),
    ("d/mul.txt", CIRCUIT),
    (
        "d/party_a.toml",
        "version = 1\ninputs = [\"5\"]\ntape = \"10 20 1 2\"\n",
    ),
    (
        "d/party_b.toml",
        "version = 1\ninputs = [\"7\"]\ntape = \"30 40 3 4\"\n",
    ),
    (
        "d/party_c.toml",
        "version = 1\ninputs = [\"\"]\ntape = \"5 6\"\n",
    ),
];

/// The job of two, whose second session has the product of 2 and 3.
pub const TWO_PRODUCTS: Texts = [
    (
        "d/job.toml",
        "version = 1\n\
         ring_bits = 8\n\
         parties = [\"a\", \"b\", \"c\"]\n\
         formula = \"2 of (a, b, c)\"\n\
         [[session]]\n\
         circuit = \"mul.txt\"\n\
         layout = \"ring\"\n\
         owners = [\"a\", \"b\"]\n\
         readers = [[\"c\"]]\n\
         [[session]]\n\
         circuit = \"mul.txt\"\n\
         layout = \"ring\"\n\
         owners = [\"a\", \"b\"]\n\
         readers = [[\"c\"]]\n",
    ),
    ("d/mul.txt", CIRCUIT),
    (
        "d/party_a.toml",
        "version = 1\ninputs = [\"5\", \"2\"]\ntape = \"10 20 1 2 11 21 3 4\"\n",
    ),
    (
        "d/party_b.toml",
        "version = 1\ninputs = [\"7\", \"3\"]\ntape = \"30 40 3 4 31 41 5 6\"\n",
    ),
    (
        "d/party_c.toml",
        "version = 1\ninputs = [\"\", \"\"]\ntape = \"5 6 7 8\"\n",
    ),
];

/// These files, of which none fails.
pub fn files_of(alloc: Global, texts: &Texts) -> Result<MapFiles, AllocError> {
    let mut files: BTreeMap<String, Vec<u8>> = BTreeMap::new(alloc);
    for (name, text) in texts {
        let bytes = Vec::from_slice(alloc, text.as_bytes())?;
        files.insert(String::from_str(alloc, name)?, bytes)?;
    }
    Ok(MapFiles::new(files, Vec::new(alloc)))
}
