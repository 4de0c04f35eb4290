//! What the arguments of each program ask for.

/// The files of `klpwatch`.
#[derive(Clone, Copy)]
pub struct WatchWords<'a> {
    pub catalog: &'a str,
    pub trace: &'a str,
}

/// The files of `klppage`.
#[derive(Clone, Copy)]
pub struct PageWords<'a> {
    pub catalog: &'a str,
    /// The path of the script or the trace.
    pub run: &'a str,
    pub is_trace: bool,
    /// The path of the file with the names of tasks and the times of lines.
    pub names: Option<&'a str>,
}

/// What `klplint` judges, and in which form it answers.
#[derive(Clone, Copy)]
pub struct LintWords<'a> {
    pub catalog: &'a str,
    /// The path of the script that comes before.
    pub script: Option<&'a str>,
    /// Whether the answer is for programs.
    pub is_json: bool,
}

/// What `klpsee` explains, and in which form it answers.
#[derive(Drop)]
pub struct SeeWords<'a> {
    /// The paths of the logs. There is at least one.
    pub logs: Vec<&'a str>,
    /// The path of the folder for files, if one is given.
    pub folder: Option<&'a str>,
    /// The path of the catalog that has what a log doesn't show of its patches, if one is given.
    pub catalog: Option<&'a str>,
    /// Whether the answer is for programs.
    pub is_json: bool,
    /// Whether the log is followed while it grows.
    pub follows: bool,
    /// Whether the answer is numbers for Prometheus.
    pub is_metrics: bool,
}

/// What `klpko` says of modules.
#[derive(Clone, Copy)]
pub enum ModuleQuestion {
    /// A catalog that says what their tables say.
    Catalog,
    /// What the tables of each one say.
    List,
    /// What becomes of each one when another one is loaded over it.
    Matrix,
}

/// Which modules `klpko` reads, what it says of them, and in which form.
#[derive(Drop)]
pub struct ModuleWords<'a> {
    /// The paths of the modules. There is at least one.
    pub modules: Vec<&'a str>,
    pub question: ModuleQuestion,
    /// Whether the answer is for programs.
    pub is_json: bool,
    /// The path of the layout of the kernel's structs, if it is given.
    pub layout: Option<&'a str>,
    /// The path of the kernel's symbols, if they are given.
    pub symbols: Option<&'a str>,
    /// The paths of modules whose functions the patches change.
    pub objects: Vec<&'a str>,
    /// The path of the list of functions that the kernel can trace, if it is given.
    pub traceable: Option<&'a str>,
    /// The path of the kernel's image, if it is given. Then neither its symbols are, nor that list.
    pub kernel: Option<&'a str>,
    /// Whether functions and objects are left out of a catalog that has no room for them.
    pub is_cut: bool,
}
