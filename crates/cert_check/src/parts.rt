//! The four parts of a certificate by name.
#![tactic(auto)]

ghost use Rattle.std.specs.Prelude.{◌≡◌};
ghost use Rattle.plan_cert.specs.Laws.{AreParts};
ghost use Rattle.plan_cert.specs.declared.shape.Shape.{Shape};
ghost use Rattle.cert_check.specs.Parts.{listed};

use plan_cert::{Cert, CertPart};

/// The four parts of a certificate.
#[derive(Clone, Copy)]
pub struct FourParts<'p> {
    /// The number of blocks.
    pub block_number: &'p CertPart,
    /// The costs of blocks.
    pub block_cost: &'p CertPart,
    /// The number of duties.
    pub duty_number: &'p CertPart,
    /// The costs of duties.
    pub duty_cost: &'p CertPart,
}

/// The four parts of a certificate.
pub(crate) fn four_parts(cert: &Cert) -> FourParts<'_>
    requires { (s : Shape) × AreParts s cert.now.parts }
    ensures { cert.now.parts ≡ listed result }
{
    match cert.parts.as_slice() {
        [block_number, block_cost, duty_number, duty_cost] => FourParts {
            block_number,
            block_cost,
            duty_number,
            duty_cost,
        },
        _ => unreachable!(),
    }
}
