// An item of a joined list.
use rules::input::Input;
use sensor::signal::Edge;

// An input of the actuator, or an edge of one of the sensor's buttons.
#[derive(Clone, Copy)]
pub enum Item {
    Plain(Input),
    Button1(Edge),
    Button2(Edge),
}
