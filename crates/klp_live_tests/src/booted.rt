//! The catalogs over which managers are booted, and the reasons why the tests end early.
ghost use Rattle.std.specs.Prelude.{◌<◌};

use std::alloc::{AllocError, Global};
use std::io;

/// Two patches, which change the kernel and a module, and a third one that replaces both.
pub(crate) const CATALOG: &[u8] = b"\
handler ffffffff81000000
object vmlinux
symbol f ffffffff81001000 e80000000090c3
symbol h ffffffff81002000 e800000000c3
object m
symbol g ffffffffa0000000 e800000000c3
patch p
target vmlinux
func .klp.sym.vmlinux.f,0 f_p ffffffffc0001000
target m
func .klp.sym.m.g,0 g_p ffffffffc0001200
patch q
target vmlinux
func .klp.sym.vmlinux.f,0 f_q ffffffffc0002000
func .klp.sym.vmlinux.h,0 h_q ffffffffc0002100
patch c replace
target vmlinux
func .klp.sym.vmlinux.f,0 f_c ffffffffc0003000
";

/// One function of the kernel, and a patch for it.
pub(crate) const SMALL: &[u8] = b"\
handler ffffffff81000000
object vmlinux
symbol f ffffffff81001000 e80000000090c3
patch p
target vmlinux
func .klp.sym.vmlinux.f,0 f_p ffffffffc0001000
";

/// Why the tests end before all of them are done.
#[derive(Clone, Copy, Debug)]
pub(crate) enum Fault {
    Boot(klp_boot::Fault),
    Io(io::Error),
}

impl From<klp_boot::Fault> for Fault {
    fn from(fault: klp_boot::Fault) -> Fault {
        Fault::Boot(fault)
    }
}

impl From<io::Error> for Fault {
    fn from(error: io::Error) -> Fault {
        Fault::Io(error)
    }
}

fn add_symbol(alloc: Global, text: &mut String, site: u64) -> Result<(), AllocError>
    requires { site < 256 }
{
    let address = 0xffff_ffff_8100_1000 + site * 16;
    let line = format!(in alloc; "symbol f{site} {address:x} e800000000c3\n")?;
    text.push_str(line.as_str())
}

fn add_function(alloc: Global, text: &mut String, site: u64) -> Result<(), AllocError> {
    let line = format!(in alloc; "func .klp.sym.vmlinux.f{site},0 n{site} ffffffffc0000000\n")?;
    text.push_str(line.as_str())
}

fn add_lines(alloc: Global, text: &mut String) -> Result<(), AllocError> {
    text.push_str("handler ffffffff81000000\nobject vmlinux\n")?;
    for site in 0..256 {
        add_symbol(alloc, text, site)?;
    }
    text.push_str("patch p\ntarget vmlinux\n")?;
    for site in 0..64 {
        add_function(alloc, text, site)?;
    }
    Ok(())
}

/// A catalog of 256 sites. Its patch has 64 functions.
pub(crate) fn large(alloc: Global) -> io::Result<String> {
    let mut text = String::new(alloc);
    add_lines(alloc, &mut text)?;
    Ok(text)
}
