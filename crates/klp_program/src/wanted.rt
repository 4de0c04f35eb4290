/// What klpsim's arguments ask for.
#[derive(Drop)]
pub enum Wanted {
    /// To serve standard input. The value is the path of the catalog's file. Without a path, the built-in catalog is
    /// used.
    Console(Option<String>),
    /// To run the steps of two task threads. The first file has the catalog, the second the steps.
    Live(String, String),
}
