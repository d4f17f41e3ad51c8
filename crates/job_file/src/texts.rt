//! The texts that a job's file may give.
ghost use Rattle.std.specs.Prelude.{◌≡◌};
ghost use Rattle.std.specs.List.{list_all};
ghost use Rattle.job_file.specs.Names.{is_file_byte, is_file_name, is_host_byte, is_host, layout_of, are_layered, are_short, are_own};
ghost use Rattle.job_file.specs.Products.{products_named};

use crate::layout::SessionLayout;
use crate::limits::{LONGEST_FILE_NAME, LONGEST_HOST};
use crate::products::Products;
use circuit_model::CircuitLayout;

fn is_file_byte(byte: u8) -> bool
    ensures { result ≡ is_file_byte byte }
{
    byte.is_ascii_alphanumeric() || byte == b'.' || byte == b'_' || byte == b'-'
}

fn has_file_bytes(bytes: &[u8]) -> bool
    ensures { result ≡ list_all is_file_byte bytes.now }
{
    bytes.iter().all(|byte| is_file_byte(*byte))
}

/// Whether the text is the name of a file: 1 to 64 letters, digits, `.`, `_` and `-`, not beginning with `.`.
#[tactic(auto, unfolding(crate::specs::Names::is_file_name))]
pub fn is_file_name(name: &str) -> bool
    ensures { result ≡ is_file_name name.now }
{
    let bytes = name.as_bytes();
    if bytes.is_empty() || bytes.len() > LONGEST_FILE_NAME {
        return false;
    }
    bytes[0] != b'.' && has_file_bytes(bytes)
}

fn is_host_byte(byte: u8) -> bool
    ensures { result ≡ is_host_byte byte }
{
    byte.is_ascii_alphanumeric() || byte == b'.' || byte == b'-' || byte == b':'
}

fn has_host_bytes(bytes: &[u8]) -> bool
    ensures { result ≡ list_all is_host_byte bytes.now }
{
    bytes.iter().all(|byte| is_host_byte(*byte))
}

/// Whether the text is a host: 1 to 64 letters, digits, `.`, `-` and `:`.
#[tactic(auto, unfolding(crate::specs::Names::is_host))]
pub fn is_host(host: &str) -> bool
    ensures { result ≡ is_host host.now }
{
    let bytes = host.as_bytes();
    if bytes.is_empty() || bytes.len() > LONGEST_HOST {
        return false;
    }
    has_host_bytes(bytes)
}

/// The layout of this name, in a file of version 2 or not.
#[tactic(auto, unfolding(crate::specs::Names::layout_of))]
pub fn layout_of(version_two: bool, name: &str) -> Option<SessionLayout>
    ensures { result ≡ layout_of version_two name.now }
{
    match name {
        "bristol" => Some(SessionLayout::Gates(CircuitLayout::Bristol)),
        "ring" => Some(SessionLayout::Gates(CircuitLayout::Ring)),
        "expr" if version_two => Some(SessionLayout::Expressions),
        "numbers" if version_two => Some(SessionLayout::Numbers),
        _ => None,
    }
}

/// The way to make products that this text tells: direct, prepared or ahead.
#[tactic(auto, unfolding(crate::specs::Products::products_named))]
pub fn products_named(name: &str) -> Option<Products>
    ensures { result ≡ products_named name.now }
{
    match name {
        "direct" => Some(Products::Direct),
        "prepared" => Some(Products::Prepared),
        "ahead" => Some(Products::Ahead),
        _ => None,
    }
}

/// Whether this text, file or layers, says that gates go in layers.
#[tactic(auto, unfolding(crate::specs::Names::are_layered))]
pub fn are_layered(name: &str) -> Option<bool>
    ensures { result ≡ are_layered name.now }
{
    match name {
        "file" => Some(false),
        "layers" => Some(true),
        _ => None,
    }
}

/// Whether this text, named or short, says that frames are short.
#[tactic(auto, unfolding(crate::specs::Names::are_short))]
pub fn are_short(name: &str) -> Option<bool>
    ensures { result ≡ are_short name.now }
{
    match name {
        "named" => Some(false),
        "short" => Some(true),
        _ => None,
    }
}

/// Whether this text, none or own, says that each node writes its own view.
#[tactic(auto, unfolding(crate::specs::Names::are_own))]
pub fn are_own(name: &str) -> Option<bool>
    ensures { result ≡ are_own name.now }
{
    match name {
        "none" => Some(false),
        "own" => Some(true),
        _ => None,
    }
}
