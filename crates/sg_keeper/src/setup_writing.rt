//! The text of a setup, written.
ghost use Rattle.std.specs.Prelude.{◌≡◌, ◌<◌, ◌++◌, ◌∷◌, [], All, codes, length, map, None, IfOk, OnOk};
ghost use Rattle.std.specs.List.{concat};
ghost use Rattle.sg_plan.specs.Limits.{fault_of};
ghost use Rattle.sg_lines.specs.Words.{encode_lower};
ghost use Rattle.sg_forms.specs.Spelling.{AreBytes};
ghost use Rattle.sg_keeper.specs.SetupText.{IsMadeOfBytes, IsSetup, plan_texts, secret_line, seed_line, setup_text};

use crate::gathered::Gathered;
use crate::setup::Setup;
use sg_forms::know_bytes;
use sg_lines::write_hex;
use sg_plan::{Items, NoMemory, Plan, Word};
use sg_record::{Wrote, write_plan};
use sg_streams::Seed;
use std::alloc::Global;

/// The lines of a plan.
fn plan_text(alloc: Global, plan: &Plan) -> Result<Word, NoMemory>
    requires { fault_of plan.now ≡ None }
    ensures { IfOk result (λ text. text ≡ concat (plan_texts plan.now)) }
{
    let mut gathered = Gathered {
        text: Word::new(alloc),
        faults: 0,
    };
    match write_plan(alloc, plan, &mut gathered) {
        Wrote::Written => Ok(gathered.text),
        Wrote::SinkFailed => Err(NoMemory),
        Wrote::NoMemory => Err(NoMemory),
    }
}

/// Puts the line of the seed.
#[tactic(auto, using(sg_lines::proofs::Hex::hex_facts))]
fn put_seed(out: &mut Word, seed: &Seed) -> Result<(), NoMemory>
    ensures { OnOk result (out.new ≡ out.old ++ seed_line seed.now.0) }
{
    let mut digits = [0; 64];
    write_hex(&seed.0, &mut digits);
    out.extend(b"seed ")?;
    out.extend(&digits)?;
    out.push(b'\n')?;
    Ok(())
}

/// Puts the line of a secret.
#[tactic(auto, using(sg_lines::proofs::Hex::hex_facts))]
fn put_secret(out: &mut Word, secret: &[u8; 16]) -> Result<(), NoMemory>
    ensures { OnOk result (out.new ≡ out.old ++ secret_line secret.now) }
{
    let mut digits = [0; 32];
    write_hex(secret, &mut digits);
    out.extend(b"secret ")?;
    out.extend(&digits)?;
    out.push(b'\n')?;
    Ok(())
}

/// Puts the lines of all secrets.
fn put_secrets(out: &mut Word, secrets: &Items<[u8; 16]>) -> Result<(), NoMemory>
    ensures { OnOk result (out.new ≡ out.old ++ concat (map secret_line secrets.now)) }
{
    for at in 0..secrets.len() {
        put_secret(out, secrets.get(at))?;
    }
    Ok(())
}

/// The text of a setup.
pub(crate) fn write_setup(alloc: Global, setup: &Setup) -> Result<Word, NoMemory>
    requires { IsSetup setup.now }
    ensures { IfOk result (λ text. text ≡ setup_text setup.now) }
{
    let mut text = plan_text(alloc, &setup.plan)?;
    put_seed(&mut text, &setup.seed)?;
    put_secrets(&mut text, &setup.secrets)?;
    Ok(text)
}

/// What the types say of a setup: its seed and its secrets are bytes.
pub(crate) fn know_setup(setup: &Setup)
    ensures { IsMadeOfBytes setup.now }
{
    know_bytes(&setup.seed.0);
    know_secrets(&setup.secrets);
}

/// A secret has 16 bytes.
fn know_secret(secret: &[u8; 16])
    ensures { AreBytes 16 secret.now }
{
    know_bytes(secret);
}

/// Each secret has 16 bytes.
fn know_secrets(secrets: &Items<[u8; 16]>)
    ensures { All (AreBytes 16) secrets.now }
{
    for at in 0..secrets.len() {
        know_secret(secrets.get(at));
    }
}
