//! Where the fields of the kernel's structs are.

/// A `struct klp_patch`: its bytes, and where fields begin in it.
#[derive(Clone, Copy)]
pub struct PatchLayout {
    pub size: u16,
    pub module: u16,
    pub objects: u16,
    pub states: u16,
    pub replace: u16,
}

/// Where the pointers to callbacks begin in the struct of an object.
#[derive(Clone, Copy)]
pub struct CallbackPlaces {
    pub pre_patch: u16,
    pub post_patch: u16,
    pub pre_unpatch: u16,
    pub post_unpatch: u16,
}

/// A `struct klp_object`: its bytes, and where fields begin in it.
#[derive(Clone, Copy)]
pub struct ObjectLayout {
    pub size: u16,
    pub name: u16,
    pub functions: u16,
    pub callbacks: CallbackPlaces,
}

/// A `struct klp_func`: its bytes, and where fields begin in it.
#[derive(Clone, Copy)]
pub struct FunctionLayout {
    pub size: u16,
    pub old_name: u16,
    pub new_function: u16,
    pub position: u16,
}

/// A `struct klp_state`: its bytes, and where fields begin in it.
#[derive(Clone, Copy)]
pub struct StateLayout {
    pub size: u16,
    pub id: u16,
    pub version: u16,
}

/// The structs of a livepatch. All numbers are bytes.
#[derive(Clone, Copy)]
pub struct Layout {
    pub patch: PatchLayout,
    pub object: ObjectLayout,
    pub function: FunctionLayout,
    pub state: StateLayout,
}

impl Layout {
    /// The layout of Linux 5.5 to 7.3 on x86-64, unless it is built for debugging: then the structs are larger.
    pub const KNOWN: Layout = Layout {
        patch: PatchLayout {
            size: 200,
            module: 0,
            objects: 8,
            states: 16,
            replace: 24,
        },
        object: ObjectLayout {
            size: 168,
            name: 0,
            functions: 8,
            callbacks: CallbackPlaces {
                pre_patch: 16,
                post_patch: 24,
                pre_unpatch: 32,
                post_unpatch: 40,
            },
        },
        function: FunctionLayout {
            size: 152,
            old_name: 0,
            new_function: 8,
            position: 16,
        },
        state: StateLayout {
            size: 24,
            id: 0,
            version: 8,
        },
    };
}
