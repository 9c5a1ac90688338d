//! From which services each service takes its pairs, in the plainest way: a list in order.

use std::alloc::{AllocError, Global};

/// A service from which another, or the same, takes pairs.
#[derive(Clone, Copy)]
struct PlainSource {
    reader: u32,
    service: u32,
}

#[derive(Drop)]
pub struct PlainOrders {
    alloc: Global,
    /// Those of each service in their order.
    sources: Vec<PlainSource>,
}

impl PlainOrders {
    pub fn new(alloc: Global) -> PlainOrders {
        PlainOrders {
            alloc,
            sources: Vec::new(alloc),
        }
    }

    /// A service takes its pairs from these services, in this order.
    pub fn set(&mut self, reader: u32, order: &[u32]) -> Result<(), AllocError> {
        self.sources.retain(|source| source.reader != reader);
        for service in order {
            self.sources.push(PlainSource {
                reader,
                service: *service,
            })?;
        }
        Ok(())
    }

    /// The services from which a service takes its pairs.
    pub fn of(&self, reader: u32) -> Result<Vec<u32>, AllocError> {
        let mut services = Vec::new(self.alloc);
        for source in &self.sources {
            if source.reader == reader {
                services.push(source.service)?;
            }
        }
        Ok(services)
    }
}
