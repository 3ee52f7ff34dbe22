//! One error for all calls, so that a program can write `?` throughout.
ghost use Rattle.std.specs.Prelude.{◌≡◌};

use crate::bulk::BulkError;
use crate::laws::RefusedCall;
use crate::laws::bulk_loads::RefusedStep;
use crate::migrate::MigrateError;
use crate::tree::try_insert::TryInsertError;
use crate::tree::update::TryUpdateError;
use rart_nodes::node::VisitError;
use rart_nodes::{NotInserted, Refused, UpdateError};
use rart_parts::TreeError;
use std::alloc::{AllocError, AllocFailed};

/// Why a call failed. Every error type of the map converts to it; values, and errors of callbacks, are dropped.
#[derive(Clone, Copy, PartialEq, Eq, Debug, thiserror::Error)]
pub enum Error {
    /// An allocation failed.
    #[error("out of memory")]
    Memory,
    /// The tree holds as many pairs as it can count.
    #[error("tree is full")]
    Full,
    /// An item of a bulk load has a key below the key of the item before it.
    #[error("item {at} is below its predecessor")]
    Unsorted {
        /// The item's index; `usize::MAX` if the index is beyond it.
        at: usize,
    },
    /// The key of an insertion that never replaces is stored.
    #[error("key is stored")]
    Occupied,
    /// A key of a migrated tree doesn't end in a zero byte.
    #[error("key {at} has no closing zero")]
    NotText {
        /// The index of the first such key, in ascending order.
        at: usize,
    },
    /// The callback returned an error.
    #[error("callback failed")]
    Callback,
    /// The stored value could not be cloned for an update.
    #[error("value was not cloned")]
    Clone,
    /// The removal that the callback of an update requested failed.
    #[error("out of memory for a removal")]
    Remove,
}

impl From<AllocError> for Error {
    ghost use Rattle.std.specs.Prelude.{◌≡◌};
    ghost use Rattle.rart.specs.declared.error.Error.TheVariants.{Memory};

    ghost from_gives = { λ _ e. e ≡ Memory };

    fn from(_failure: AllocError) -> Error {
        Error::Memory
    }
}

impl<T: Drop> From<AllocFailed<T>> for Error {
    ghost use Rattle.std.specs.Prelude.{◌≡◌};
    ghost use Rattle.rart.specs.declared.error.Error.TheVariants.{Memory};

    ghost from_gives = { λ _ e. e ≡ Memory };

    fn from(_failure: AllocFailed<T>) -> Error {
        Error::Memory
    }
}

impl From<TreeError> for Error {
    ghost use Rattle.std.specs.Prelude.{◌≡◌};
    ghost use Rattle.rart.specs.Errors.{error_of_tree};

    ghost from_gives = { λ error e. e ≡ error_of_tree error };

    fn from(error: TreeError) -> Error {
        match error {
            TreeError::Memory => Error::Memory,
            TreeError::Full => Error::Full,
        }
    }
}

impl<V: Drop> From<Refused<V>> for Error {
    ghost use Rattle.std.specs.Prelude.{◌≡◌};
    ghost use Rattle.rart.specs.Errors.{error_of_tree};

    ghost from_gives = { λ refused e. e ≡ error_of_tree refused.error };

    fn from(refused: Refused<V>) -> Error {
        Error::from(refused.error)
    }
}

impl From<BulkError> for Error {
    ghost use Rattle.std.specs.Prelude.{◌≡◌};
    ghost use Rattle.rart.specs.Errors.{error_of_bulk};

    ghost from_gives = { λ error e. e ≡ error_of_bulk error };

    fn from(error: BulkError) -> Error {
        match error {
            BulkError::Memory => Error::Memory,
            BulkError::Full => Error::Full,
            BulkError::Unsorted { at } => Error::Unsorted { at },
        }
    }
}

impl From<MigrateError> for Error {
    ghost use Rattle.std.specs.Prelude.{◌≡◌};
    ghost use Rattle.rart.specs.Errors.{error_of_migration};

    ghost from_gives = { λ error e. e ≡ error_of_migration error };

    fn from(error: MigrateError) -> Error {
        match error {
            MigrateError::Memory => Error::Memory,
            MigrateError::NotText { at } => Error::NotText { at },
        }
    }
}

impl<V: Drop> From<NotInserted<V>> for Error {
    ghost use Rattle.std.specs.Prelude.{◌≡◌};
    ghost use Rattle.rart.specs.Errors.{error_of_insert_new};

    ghost from_gives = { λ error e. e ≡ error_of_insert_new error };

    fn from(error: NotInserted<V>) -> Error {
        match error {
            NotInserted::Stored(_) => Error::Occupied,
            NotInserted::Refused(refused) => Error::from(refused),
        }
    }
}

impl<'a, V: Drop> From<TryInsertError<'a, V>> for Error {
    ghost use Rattle.std.specs.Prelude.{◌≡◌};
    ghost use Rattle.rart.specs.Errors.{error_of_try_insert};

    ghost from_gives = { λ error e. e ≡ error_of_try_insert error };

    fn from(error: TryInsertError<'a, V>) -> Error {
        match error {
            TryInsertError::Occupied(_, _) => Error::Occupied,
            TryInsertError::Refused(refused) => Error::from(refused),
        }
    }
}

impl<V: Drop> From<UpdateError<V>> for Error {
    ghost use Rattle.std.specs.Prelude.{◌≡◌};
    ghost use Rattle.rart.specs.Errors.{error_of_update};

    ghost from_gives = { λ error e. e ≡ error_of_update error };

    fn from(error: UpdateError<V>) -> Error {
        match error {
            UpdateError::Insert(refused) => Error::from(refused),
            UpdateError::Remove => Error::Remove,
        }
    }
}

impl<E: Drop, V: Drop> From<TryUpdateError<E, V>> for Error {
    ghost use Rattle.std.specs.Prelude.{◌≡◌};
    ghost use Rattle.rart.specs.Errors.{error_of_try_update};

    ghost from_gives = { λ error e. e ≡ error_of_try_update error };

    fn from(error: TryUpdateError<E, V>) -> Error {
        match error {
            TryUpdateError::Callback(_) => Error::Callback,
            TryUpdateError::Insert(refused) => Error::from(refused),
            TryUpdateError::Remove => Error::Remove,
            TryUpdateError::Clone => Error::Clone,
        }
    }
}

impl<E: Drop> From<VisitError<E>> for Error {
    ghost use Rattle.std.specs.Prelude.{◌≡◌};
    ghost use Rattle.rart.specs.Errors.{error_of_visit};

    ghost from_gives = { λ error e. e ≡ error_of_visit error };

    fn from(error: VisitError<E>) -> Error {
        match error {
            VisitError::Callback(_) => Error::Callback,
            VisitError::Memory => Error::Memory,
        }
    }
}

impl From<RefusedStep> for Error {
    ghost use Rattle.std.specs.Prelude.{◌≡◌};
    ghost use Rattle.rart.specs.Errors.{error_of_step};

    ghost from_gives = { λ error e. e ≡ error_of_step error };

    fn from(error: RefusedStep) -> Error {
        match error {
            RefusedStep::Load(error) => Error::from(error),
            RefusedStep::Insertion(error) | RefusedStep::Stats(error) => Error::from(error),
        }
    }
}

impl<V: Drop> From<RefusedCall<V>> for Error {
    ghost use Rattle.std.specs.Prelude.{◌≡◌};
    ghost use Rattle.rart.specs.Errors.{error_of_call};

    ghost from_gives = { λ error e. e ≡ error_of_call error };

    fn from(error: RefusedCall<V>) -> Error {
        match error {
            RefusedCall::Insertion(refused) => Error::from(refused),
            RefusedCall::StatsBefore(error)
            | RefusedCall::StatsBetween(error)
            | RefusedCall::Removal(error)
            | RefusedCall::StatsAfter(error) => Error::from(error),
        }
    }
}
