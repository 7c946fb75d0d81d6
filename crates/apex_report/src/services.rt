//! The figures of a service.
ghost use Rattle.std.specs.Prelude.{◌≡◌, [], map, IfOk};
ghost use Rattle.std.specs.List.{AllByRecursion};
ghost use Rattle.apex_types.specs.declared.limits.TheConstants.{MOST_ENTRIES};
ghost use Rattle.apex_calls.specs.Catalogue.{all_services};
ghost use Rattle.apex_report.specs.Services.{asks_for, is_same_service, row_figures, service_figures, service_of};
ghost use Rattle.apex_report.specs.Steps.{service_after, IsServiceUpTo};

use crate::refusals::{Refusals, is_refusal};
use apex_calls::{CATALOGUE, Row, Service, parts_of, row_of};
use apex_types::{Call, LentEntry};
use std::alloc::{AllocError, Global};

/// The figures of a service over a history (this profile).
#[derive(Clone, Copy)]
pub struct ServiceFigures {
    /// The service whose figures these are.
    pub service: Service,
    /// The replies to its calls, other than NO_ERROR, whoever asked for them.
    pub refusals: Refusals,
}

/// The service that the call asks for.
fn service_of(call: &Call) -> Service
    ensures { result ≡ service_of call.now }
{
    let (service, _) = parts_of(call);
    service
}

fn is_same_service(first: Service, second: Service) -> bool
    ensures { result ≡ is_same_service first second }
{
    row_of(first).word == row_of(second).word
}

fn asks_for(service: Service, call: &Option<Call>) -> bool
    ensures { result ≡ asks_for service call.now }
{
    match call {
        Some(call) => is_same_service(service, service_of(call)),
        None => false,
    }
}

impl ServiceFigures {
    /// The figures of the service before any entry.
    pub(crate) fn before(service: Service) -> ServiceFigures
        ensures { result ≡ service_figures [] service }
    {
        ServiceFigures {
            service,
            refusals: Refusals::none(),
        }
    }

    /// Notes what the entry says of the service: its reply counts if it refuses a call of the service.
    #[tactic(auto, using(crate::proofs::Refused::service_kept))]
    fn note(&mut self, entry: &LentEntry<'_>)
        requires { IsServiceUpTo MOST_ENTRIES self.old }
        ensures { self.new ≡ service_after entry.entry.now self.old }
    {
        if asks_for(self.service, &entry.call) {
            self.refusals.note(&entry.reply);
        }
    }
}

/// The figures of the services of these rows before any entry.
fn services_of(alloc: Global, rows: &[Row]) -> Result<Vec<ServiceFigures>, AllocError>
    ensures { IfOk result (λ services. services.items ≡ map row_figures rows.now) }
{
    let mut services = Vec::with_capacity(alloc, rows.len())?;
    for row in rows {
        services.push(ServiceFigures::before(row.service))?;
    }
    Ok(services)
}

/// The figures of each service before any entry.
pub(crate) fn services_before(alloc: Global) -> Result<Vec<ServiceFigures>, AllocError>
    ensures { IfOk result (λ services. services.items ≡ map (service_figures []) all_services) }
{
    services_of(alloc, &CATALOGUE)
}

/// Notes the reply of the entry for its service.
fn note_each(services: &mut Vec<ServiceFigures>, entry: &LentEntry<'_>)
    requires { AllByRecursion (IsServiceUpTo MOST_ENTRIES) services.old.items }
    ensures { services.new.items ≡ map (service_after entry.entry.now) services.old.items }
{
    for figures in services.iter_mut() {
        figures.note(entry);
    }
}

/// Notes what the entry says of each service: nothing if its reply refuses no call.
#[tactic(auto, using(crate::proofs::Refused::none_refused))]
pub(crate) fn note_services(services: &mut Vec<ServiceFigures>, entry: &LentEntry<'_>)
    requires { AllByRecursion (IsServiceUpTo MOST_ENTRIES) services.old.items }
    ensures { services.new.items ≡ map (service_after entry.entry.now) services.old.items }
{
    if is_refusal(&entry.reply) {
        note_each(services, entry);
    }
}
