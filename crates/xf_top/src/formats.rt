//! What the bytes of a file are read as.

ghost use Rattle.std.specs.Prelude.{◌≡◌};
ghost use Rattle.xf_top.specs.Formats.{IsEither, IsKnown, IsNeither, begins_with_tag, is_markup, past_mark};
ghost use Rattle.xf_markup.specs.Reading.{is_space};
ghost use Rattle.xs_file.specs.Reading.{IsFaulty, Spells};
ghost use Rattle.xs_model.specs.Accepted.{IsAccepted};

use fz_model::Model;
use fz_read::read_model;
use std::alloc::Global;
use xf_course::Format;
use xf_text::Stop;
use xs_file::read_instance;
use xs_model::Instance;

/// An instance of XCSP3-core.
#[derive(Clone, Copy)]
pub struct AnInstance;

impl Format for AnInstance {
    type Value = Instance;

    ghost accepts = { λ f. Spells };

    ghost refuses = { λ f. IsFaulty };

    ghost knows = { λ f. IsAccepted };

    fn parse(&self, alloc: Global, bytes: &[u8]) -> Result<Instance, Stop> {
        read_instance(alloc, bytes)
    }
}

/// An instance or a model.
#[derive(Drop)]
pub enum Either {
    Markup(Instance),
    Flat(Model),
}

/// An instance where the first byte past a byte order mark and whitespace is `<`, else a model without a bound.
#[derive(Clone, Copy)]
pub struct AnEither;

impl Format for AnEither {
    type Value = Either;

    ghost accepts = { λ f. IsEither };

    ghost refuses = { λ f. IsNeither };

    ghost knows = { λ f. IsKnown };

    fn parse(&self, alloc: Global, bytes: &[u8]) -> Result<Either, Stop> {
        if is_markup(bytes) {
            let instance = read_instance(alloc, bytes)?;
            return Ok(Either::Markup(instance));
        }
        let model = read_model(alloc, bytes, None)?;
        Ok(Either::Flat(model))
    }
}

fn is_markup(bytes: &[u8]) -> bool
    ensures { result ≡ is_markup bytes.now }
{
    begins_with_tag(past_mark(bytes))
}

// What stands behind a byte order mark.
fn past_mark(bytes: &[u8]) -> &[u8]
    ensures { result.now ≡ past_mark bytes.now }
{
    if bytes.starts_with(&[239, 187, 191]) {
        &bytes[3..]
    } else {
        bytes
    }
}

// Whether the first byte that is no whitespace is `<`.
fn begins_with_tag(bytes: &[u8]) -> bool
    ensures { result ≡ begins_with_tag bytes.now }
{
    for byte in bytes {
        if !is_space(*byte) {
            return *byte == 60;
        }
    }
    false
}

fn is_space(byte: u8) -> bool
    ensures { result ≡ is_space byte }
{
    byte == 32 || byte == 9 || byte == 10 || byte == 13
}
