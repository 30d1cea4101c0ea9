// Laws of the rules alone: this crate has no code.
