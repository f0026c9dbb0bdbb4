//! Whether bytes are a certificate of a graph.
ghost use Rattle.std.specs.Prelude.{◌≡◌, ◌≢◌, ℕ, ◌≤◌, Result, Err, map, length, IfOk, IfErr};
ghost use Rattle.std.specs.List.{AllByRecursion};
ghost use Rattle.sw_cert.specs.Begun.{IsForm};
ghost use Rattle.sw_cert.specs.Certificate.{IsCertificate};
ghost use Rattle.sw_cert.specs.ReadLines.{AreStarts};
ghost use Rattle.sw_cert.specs.Tests.{IfNotRead};
ghost use Rattle.sw_cert.specs.Verified.{HasFitExtents, Verified};
ghost use Rattle.sw_cert.specs.declared.verdict.CertFault.TheVariants as faults;
ghost use Rattle.sw_cert.specs.declared.verdict.TheConstants.{CERTIFICATE_LIMIT};

use crate::flows::{flows_of, form_of};
use crate::form::Form;
use crate::line::Line;
use crate::reading::read_lines;
use crate::slip::Slip;
use crate::tables::tables_of;
use crate::testing::{first_not_entered, test_lines};
use crate::verdict::CertFault;
use std::alloc::Global;
use sw_graph::Graph;
use sw_list::ListOf;

/// The lines of a certificate, and the bytes at which they begin.
fn read(alloc: Global, form: &Form, bytes: &[u8]) -> Result<(ListOf<Line>, ListOf<u64>), CertFault>
    requires form { IsForm form.now }
    requires few { length bytes.now ≤ CERTIFICATE_LIMIT }
    ensures lines { IfOk result (λ read. IsCertificate form.now.extents bytes.now read.0) }
    ensures starts { IfOk result (λ read. AreStarts read.0 read.1) }
    ensures bad { IfErr result (IfNotRead form.now.extents bytes.now) }
{
    match read_lines(alloc, form, bytes) {
        Ok(read) => Ok(read),
        Err(Slip::Bad { at }) => Err(CertFault::BadForm { at: at as u32 }),
        Err(Slip::Memory) => Err(CertFault::Memory),
    }
}

/// Tests a certificate of a graph, without solving: whether the bytes are one, and the states that
/// it gives the blocks of each function are closed and let each test pass.
pub fn verify(alloc: Global, graph: &Graph, bytes: &[u8]) -> Result<(), CertFault>
    requires { length bytes.now ≤ CERTIFICATE_LIMIT }
    ensures verified { result ≢ Err faults.Memory → Verified graph.now bytes.now result }
    ensures fit { result ≢ Err faults.Memory → HasFitExtents graph.now }
{
    let flows = flows_of(alloc, graph)?;
    let flows = flows.as_slice();
    let form = form_of(alloc, flows)?;
    let (lines, starts) = read(alloc, &form, bytes)?;
    let lines = lines.as_slice();
    let tables = tables_of(alloc, flows, lines)?;
    let tables = tables.as_slice();
    if let Some(function) = first_not_entered(flows, tables) {
        return Err(CertFault::Entry {
            function: function as u32,
        });
    }
    test_lines(alloc, flows, tables, lines, starts.as_slice())
}
