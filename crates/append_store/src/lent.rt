// A store that is lent is a store.
use crate::{Cluster, CreateFault, ListFault, StoreFault};
use gw_model::{KeptObject, ObjectId};

impl<C: Cluster> Cluster for &mut C {
    type File = C::File;

    ghost at = { λ c. C.at c.now };

    ghost losses = { λ c. C.losses c.now };

    ghost count = { λ c. C.count c.now };

    ghost tally = { λ c. C.tally c.now };

    fn list(&mut self) -> Result<Vec<KeptObject>, ListFault> {
        (**self).list()
    }

    fn create(&mut self, object: ObjectId) -> Result<(), CreateFault> {
        (**self).create(object)
    }

    fn take_file(&mut self, object: ObjectId) -> Result<Self::File, StoreFault> {
        (**self).take_file(object)
    }

    fn give_file(&mut self, object: ObjectId, file: Self::File) {
        (**self).give_file(object, file)
    }

    fn read_closed(
        &mut self,
        object: ObjectId,
        offset: u64,
        out: &mut [u8],
    ) -> Result<usize, StoreFault> {
        (**self).read_closed(object, offset, out)
    }

    fn delete(&mut self, object: ObjectId) -> Result<(), StoreFault> {
        (**self).delete(object)
    }

    fn reopen(&mut self, pick: u64) -> Result<(), StoreFault> {
        (**self).reopen(pick)
    }

    fn faults(&self) -> u64 {
        (**self).faults()
    }
}
