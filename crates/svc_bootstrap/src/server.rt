pub mod bootstrap_services;
