//! Which objects and functions of a patch stay.
use crate::check::{is_shared, must_stay};
use crate::cut::CutRoom;
use klp_module_matrix::Changed;
use klp_tables::{Function, Object};
use std::alloc::{AllocError, Global};

/// Decides which parts of a patch stay.
#[derive(Drop)]
pub(crate) struct Choice<'c, 'a> {
    /// The functions that the other patches change.
    others: &'c [Changed<'a>],
    /// Of each object whether it stays.
    stays: Vec<bool>,
    /// How many more functions stay that no other patch changes.
    room: usize,
}

impl<'c, 'a> Choice<'c, 'a> {
    /// Chooses the objects that stay: those that must, and then others in the order of the tables. Functions that another
    /// patch changes too all stay, and the first others, as far as there is room. Returns `Err` if memory runs out.
    pub(crate) fn new(
        alloc: Global,
        others: &'c [Changed<'a>],
        objects: &[Object<'a>],
        room: CutRoom,
    ) -> Result<Choice<'c, 'a>, AllocError> {
        let (mut left_objects, mut left_functions) = (room.objects, room.functions);
        for object in objects {
            if must_stay(others, object) {
                left_objects = left_objects.saturating_sub(1);
            }
            for function in &object.functions {
                if is_shared(others, &object.row, function) {
                    left_functions = left_functions.saturating_sub(1);
                }
            }
        }
        let mut stays = Vec::new(alloc);
        for object in objects {
            let must = must_stay(others, object);
            stays.push(must || left_objects > 0)?;
            if !must {
                left_objects = left_objects.saturating_sub(1);
            }
        }
        Ok(Choice {
            others,
            stays,
            room: left_functions,
        })
    }

    /// Whether an object stays.
    pub(crate) fn has_object(&self, number: usize) -> bool {
        self.stays.get(number).copied().unwrap_or(false)
    }

    /// Whether the next function of an object that stays does, too. The functions must be asked for in the order of the
    /// tables, each once.
    pub(crate) fn takes(&mut self, object: &Object<'a>, function: &Function<'a>) -> bool {
        if is_shared(self.others, &object.row, function) {
            return true;
        }
        let room = self.room;
        self.room = room.saturating_sub(1);
        room > 0
    }
}
