/// The built-in catalog, which is used if no file is named.
pub const CATALOG: &[u8] = b"\
handler ffffffff81000000
object vmlinux
symbol f ffffffff81001000 e80000000090c3
patch p
target vmlinux
func .klp.sym.vmlinux.f,0 f_p ffffffffc0001000
";
